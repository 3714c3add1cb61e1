//! What the values of a command say.
ghost use Rattle.std.specs.Prelude.{◌≡◌, ◌≤◌, IfOk, IfSome, codes, length, map, string_bytes, true};
ghost use Rattle.vr_base.specs.Groups.{is_size};
ghost use Rattle.std.specs.Option.{option_map};
ghost use Rattle.clap.specs.Words.{all_of, first_of, found_of, rows_of};
ghost use Rattle.vr_args.specs.Asked.{asker_at, below_at, client_at, client_says, client_texts_say, flag_at, fresh_at, fresh_of, id_at, kind_of, least_by, member_at, migrate_at, migrate_says, migrate_texts_say, mover_at, n_at, node_at, node_says, node_texts_say, number_at, peers_at, soak_at, texts_now, trial_at, trial_says, trial_texts_say, trier_at, version_at, version_of};

use crate::command::{ClientWords, MigrateWords, NodeWords, SoakWords, TrialWords};
use clap::ArgMatches;
use std::alloc::{AllocError, Global};
use vr_base::{Config, Kind, Mode, Version, is_size};
use vr_lines::{read_below, read_number};

/// The text of an argument.
#[tactic(auto, using(crate::proofs::Rows::first_in_rows))]
fn text_at<'a>(matches: &ArgMatches<'a>, id: &str) -> Option<&'a str>
    ensures { option_map (λ text. text.now) result ≡ first_of id.now (rows_of (found_of matches.now)) }
{
    matches.get_str(id)
}

/// The number of an argument.
fn number_at(matches: &ArgMatches<'_>, id: &str) -> Option<u64>
    ensures { result ≡ number_at id.now (rows_of (found_of matches.now)) }
{
    read_number(text_at(matches, id)?.as_bytes())
}

/// The number of an argument, below a bound.
fn below_at(matches: &ArgMatches<'_>, bound: u64, id: &str) -> Option<u64>
    ensures { result ≡ below_at bound id.now (rows_of (found_of matches.now)) }
{
    read_below(bound, text_at(matches, id)?.as_bytes())
}

/// All values of the argument for addresses.
#[tactic(auto, using(crate::proofs::Rows::all_in_rows))]
fn all_at<'m, 'a>(matches: &'m ArgMatches<'a>) -> Option<&'m [&'a str]>
    ensures { option_map (λ texts. texts_now texts.now) result ≡ all_of (codes "addr") (rows_of (found_of matches.now)) }
{
    matches.get_raw("addr")
}

/// Whether a group whose files are of this version has so many members.
fn is_group(version: Version, n: u64) -> bool
    ensures value { result ≡ is_size version n }
    ensures few { result ≡ true → n ≤ 6 }
{
    n <= 6 && is_size(version, n as u8)
}

/// The addresses, as they stand on the command line: as many as a group has members whose files are of this version.
#[tactic(auto, using(std::proofs::lemmas::Grind::common_steps, crate::proofs::Rows::texts_length), unfolding(crate::specs::Asked::peers_at))]
fn peers_at<'m, 'a>(matches: &'m ArgMatches<'a>, version: Version) -> Option<&'m [&'a str]>
    ensures peers { option_map (λ texts. texts_now texts.now) result ≡ peers_at version (rows_of (found_of matches.now)) }
    ensures few { IfSome result (λ peers. length peers.now ≤ 6) }
{
    let peers = all_at(matches)?;
    if is_group(version, peers.len() as u64) {
        Some(peers)
    } else {
        None
    }
}

/// Whether a flag stands there.
#[tactic(auto, unfolding(crate::specs::Asked::flag_at))]
fn flag_at(matches: &ArgMatches<'_>, id: &str) -> bool
    ensures { result ≡ flag_at id.now (rows_of (found_of matches.now)) }
{
    match text_at(matches, id) {
        Some(text) => text == "true",
        None => false,
    }
}

/// 2 where `--v2` stands there, else 1.
fn version_of(v2: bool) -> Version
    ensures { result ≡ version_of v2 }
{
    Version::new(if v2 { 2 } else { 1 })
}

/// The version that is asked for.
#[tactic(auto, unfolding(crate::specs::Asked::version_at))]
fn version_at(matches: &ArgMatches<'_>) -> Version
    ensures { result ≡ version_at (rows_of (found_of matches.now)) }
{
    version_of(flag_at(matches, "v2"))
}

/// What a file is made as, by whether `--careful` and `--v2` stand there.
fn kind_of(careful: bool, v2: bool) -> Kind
    ensures { result ≡ kind_of careful v2 }
{
    Kind {
        mode: if careful { Mode::Careful } else { Mode::Strict },
        version: version_of(v2),
    }
}

/// What the file is made as, none where it is found again, by whether `--fresh`, `--careful` and `--v2` stand there. The mode and the
/// version of a file are chosen where it is made: neither `--careful` nor `--v2` is a form without `--fresh`.
fn fresh_of(fresh: bool, careful: bool, v2: bool) -> Option<Option<Kind>>
    ensures { result ≡ fresh_of fresh careful v2 }
{
    if fresh {
        return Some(Some(kind_of(careful, v2)));
    }
    if careful || v2 { None } else { Some(None) }
}

/// Of which kind a file is made anew, if it is, by the words.
#[tactic(auto, unfolding(crate::specs::Asked::fresh_at))]
fn fresh_at(matches: &ArgMatches<'_>) -> Option<Option<Kind>>
    ensures { result ≡ fresh_at (rows_of (found_of matches.now)) }
{
    fresh_of(
        flag_at(matches, "fresh"),
        flag_at(matches, "careful"),
        flag_at(matches, "v2"),
    )
}

/// The version that says how few members there may be: of a file that is made, its own. One that is found again has its version and its
/// group in itself, so there may be as few as of any version.
fn least_by(fresh: &Option<Kind>) -> Version
    ensures { result ≡ least_by fresh.now }
{
    match fresh {
        Some(kind) => kind.version,
        None => Version::new(2),
    }
}

/// The values of `soak`.
#[tactic(auto, unfolding(crate::specs::Asked::soak_at))]
pub fn soak_at(matches: &ArgMatches<'_>) -> Option<SoakWords>
    ensures { result ≡ soak_at (rows_of (found_of matches.now)) }
{
    let seed = number_at(matches, "seed")?;
    let count = below_at(matches, 1_000_000, "count")? as u32;
    Some(SoakWords { seed, count })
}

/// The client of a group, which isn't 0.
#[tactic(auto, unfolding(crate::specs::Asked::id_at))]
fn id_at(matches: &ArgMatches<'_>) -> Option<u64>
    ensures { result ≡ id_at (rows_of (found_of matches.now)) }
{
    let id = number_at(matches, "id")?;
    if id == 0 { None } else { Some(id) }
}

/// The values of `node`, as they stand on the command line.
#[derive(Clone, Copy)]
struct NodeTexts<'m, 'a> {
    cluster: u64,
    replica: u8,
    file: &'a str,
    turns: u64,
    peers: &'m [&'a str],
    fresh: Option<Kind>,
}

/// The values of `client`, as they stand on the command line.
#[derive(Clone, Copy)]
struct ClientTexts<'m, 'a> {
    version: Version,
    cluster: u64,
    id: u64,
    turns: u64,
    peers: &'m [&'a str],
}

/// The values of `trial`, as they stand on the command line.
#[derive(Clone, Copy)]
struct TrialTexts<'m, 'a> {
    cluster: u64,
    turns: u64,
    files: &'a str,
    peers: &'m [&'a str],
}

/// The values of `migrate`, as they stand on the command line.
#[derive(Clone, Copy)]
struct MigrateTexts<'a> {
    config: Config,
    file: &'a str,
}

/// The values of `node` beside its addresses and what its file is made as.
#[tactic(auto, using(std::proofs::lemmas::Grind::common_steps, crate::proofs::Rows::texts_length), unfolding(crate::specs::Asked::member_at))]
fn member_at<'m, 'a>(
    matches: &ArgMatches<'a>,
    fresh: Option<Kind>,
    peers: &'m [&'a str],
) -> Option<NodeTexts<'m, 'a>>
    requires { length peers.now ≤ 6 }
    ensures { option_map node_texts_say result ≡ member_at fresh (texts_now peers.now) (rows_of (found_of matches.now)) }
{
    let cluster = number_at(matches, "cluster")?;
    let replica = below_at(matches, peers.len() as u64, "replica")? as u8;
    let file = text_at(matches, "file")?;
    let turns = number_at(matches, "turns")?;
    Some(NodeTexts {
        cluster,
        replica,
        file,
        turns,
        peers,
        fresh,
    })
}

/// The values of `client` beside its version and its addresses.
#[tactic(auto, unfolding(crate::specs::Asked::asker_at))]
fn asker_at<'m, 'a>(
    matches: &ArgMatches<'a>,
    version: Version,
    peers: &'m [&'a str],
) -> Option<ClientTexts<'m, 'a>>
    ensures { option_map client_texts_say result ≡ asker_at version (texts_now peers.now) (rows_of (found_of matches.now)) }
{
    let cluster = number_at(matches, "cluster")?;
    let id = id_at(matches)?;
    let turns = number_at(matches, "turns")?;
    Some(ClientTexts {
        version,
        cluster,
        id,
        turns,
        peers,
    })
}

/// The values of `trial` beside the addresses.
#[tactic(auto, unfolding(crate::specs::Asked::trier_at))]
fn trier_at<'m, 'a>(matches: &ArgMatches<'a>, peers: &'m [&'a str]) -> Option<TrialTexts<'m, 'a>>
    ensures { option_map trial_texts_say result ≡ trier_at (texts_now peers.now) (rows_of (found_of matches.now)) }
{
    let cluster = number_at(matches, "cluster")?;
    let turns = number_at(matches, "turns")?;
    let files = text_at(matches, "files")?;
    Some(TrialTexts {
        cluster,
        turns,
        files,
        peers,
    })
}

/// Of how many members a group is, whose files are to be of version 2.
#[tactic(auto, unfolding(crate::specs::Asked::n_at))]
fn n_at(matches: &ArgMatches<'_>) -> Option<u8>
    ensures { result ≡ n_at (rows_of (found_of matches.now)) }
{
    let n = number_at(matches, "n")?;
    if is_group(Version::new(2), n) {
        Some(n as u8)
    } else {
        None
    }
}

/// The values of `migrate` beside the size of the group.
#[tactic(auto, unfolding(crate::specs::Asked::mover_at))]
fn mover_at<'a>(matches: &ArgMatches<'a>, n: u8) -> Option<MigrateTexts<'a>>
    ensures { option_map migrate_texts_say result ≡ mover_at n (rows_of (found_of matches.now)) }
{
    let cluster = number_at(matches, "cluster")?;
    let replica = below_at(matches, u64::from(n), "replica")? as u8;
    let file = text_at(matches, "file")?;
    let config = Config {
        cluster,
        replica,
        n,
    };
    Some(MigrateTexts { config, file })
}

/// Texts of one's own.
#[tactic(auto, using(std::proofs::lemmas::Grind::common_steps, crate::proofs::Rows::copied_more))]
fn copied(alloc: Global, texts: &[&str]) -> Result<Vec<String>, AllocError>
    ensures { IfOk result (λ copies. map string_bytes copies.items ≡ texts_now texts.now) }
{
    let mut copies = Vec::new(alloc);
    for text in texts {
        copies.push(String::from_str(alloc, text)?)?;
    }
    Ok(copies)
}

/// The values of `node`, where they are in range.
#[tactic(auto, unfolding(crate::specs::Asked::node_at))]
fn node_texts<'m, 'a>(matches: &'m ArgMatches<'a>) -> Option<NodeTexts<'m, 'a>>
    ensures { option_map node_texts_say result ≡ node_at (rows_of (found_of matches.now)) }
{
    let fresh = fresh_at(matches)?;
    let peers = peers_at(matches, least_by(&fresh))?;
    member_at(matches, fresh, peers)
}

/// The values of `client`, where they are in range.
#[tactic(auto, unfolding(crate::specs::Asked::client_at))]
fn client_texts<'m, 'a>(matches: &'m ArgMatches<'a>) -> Option<ClientTexts<'m, 'a>>
    ensures { option_map client_texts_say result ≡ client_at (rows_of (found_of matches.now)) }
{
    let version = version_at(matches);
    let peers = peers_at(matches, version)?;
    asker_at(matches, version, peers)
}

/// The values of `trial`, where they are in range; its members' files are of version 1.
#[tactic(auto, unfolding(crate::specs::Asked::trial_at))]
fn trial_texts<'m, 'a>(matches: &'m ArgMatches<'a>) -> Option<TrialTexts<'m, 'a>>
    ensures { option_map trial_texts_say result ≡ trial_at (rows_of (found_of matches.now)) }
{
    let peers = peers_at(matches, Version::new(1))?;
    trier_at(matches, peers)
}

/// The values of `migrate`, where they are in range.
#[tactic(auto, unfolding(crate::specs::Asked::migrate_at))]
fn migrate_texts<'a>(matches: &ArgMatches<'a>) -> Option<MigrateTexts<'a>>
    ensures { option_map migrate_texts_say result ≡ migrate_at (rows_of (found_of matches.now)) }
{
    let n = n_at(matches)?;
    mover_at(matches, n)
}

/// What the words ask of `node`, with texts of its own.
pub fn node_at(alloc: Global, matches: &ArgMatches<'_>) -> Result<Option<NodeWords>, AllocError>
    ensures { IfOk result (λ words. option_map node_says words ≡ node_at (rows_of (found_of matches.now))) }
{
    let Some(texts) = node_texts(matches) else {
        return Ok(None);
    };
    Ok(Some(NodeWords {
        cluster: texts.cluster,
        replica: texts.replica,
        file: String::from_str(alloc, texts.file)?,
        turns: texts.turns,
        peers: copied(alloc, texts.peers)?,
        fresh: texts.fresh,
    }))
}

/// What the words ask of `client`, with texts of its own.
pub fn client_at(alloc: Global, matches: &ArgMatches<'_>) -> Result<Option<ClientWords>, AllocError>
    ensures { IfOk result (λ words. option_map client_says words ≡ client_at (rows_of (found_of matches.now))) }
{
    let Some(texts) = client_texts(matches) else {
        return Ok(None);
    };
    Ok(Some(ClientWords {
        version: texts.version,
        cluster: texts.cluster,
        id: texts.id,
        turns: texts.turns,
        peers: copied(alloc, texts.peers)?,
    }))
}

/// What the words ask of `trial`, with texts of its own.
pub fn trial_at(alloc: Global, matches: &ArgMatches<'_>) -> Result<Option<TrialWords>, AllocError>
    ensures { IfOk result (λ words. option_map trial_says words ≡ trial_at (rows_of (found_of matches.now))) }
{
    let Some(texts) = trial_texts(matches) else {
        return Ok(None);
    };
    Ok(Some(TrialWords {
        cluster: texts.cluster,
        turns: texts.turns,
        files: String::from_str(alloc, texts.files)?,
        peers: copied(alloc, texts.peers)?,
    }))
}

/// What the words ask of `migrate`, with texts of its own.
pub fn migrate_at(
    alloc: Global,
    matches: &ArgMatches<'_>,
) -> Result<Option<MigrateWords>, AllocError>
    ensures { IfOk result (λ words. option_map migrate_says words ≡ migrate_at (rows_of (found_of matches.now))) }
{
    let Some(texts) = migrate_texts(matches) else {
        return Ok(None);
    };
    Ok(Some(MigrateWords {
        config: texts.config,
        file: String::from_str(alloc, texts.file)?,
    }))
}
