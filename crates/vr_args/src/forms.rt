//! The forms of the command line, as `clap` takes them.
ghost use Rattle.std.specs.Prelude.{◌≡◌, IfOk, IsOkAnd};
ghost use Rattle.vr_args.specs.Asked.{texts_now};
ghost use Rattle.vr_args.specs.Forms.{IsLocal, IsLocalArg, above, addresses, client, flag, form_of, making, migrate, node, peered, plain, replay, rule_in, running, soak, taking, the_command, top, trial, wanted, wanting};

use clap::{Arg, ArgAction, Command};
use std::alloc::{AllocError, Global};

/// A required argument.
#[tactic(auto, unfolding(crate::specs::Forms::rule_in, crate::specs::Forms::IsLocalArg, crate::specs::Forms::wanted))]
fn wanted<'a>(alloc: Global, id: &'a str) -> Arg<'a>
    ensures rule { rule_in result ≡ wanted id.entry.now }
    ensures local { IsLocalArg result }
{
    Arg::new(alloc, id).required(true)
}

/// The addresses of the members.
#[tactic(auto, unfolding(crate::specs::Forms::rule_in, crate::specs::Forms::IsLocalArg, crate::specs::Forms::wanted, crate::specs::Forms::addresses))]
fn addresses<'a>(alloc: Global) -> Arg<'a>
    ensures rule { rule_in result ≡ addresses }
    ensures local { IsLocalArg result }
{
    wanted(alloc, "addr")
        .num_args(1..)
        .action(ArgAction::Append)
}

/// A flag.
#[tactic(auto, unfolding(crate::specs::Forms::rule_in, crate::specs::Forms::IsLocalArg, crate::specs::Forms::flag))]
fn flag<'a>(alloc: Global, id: &'a str) -> Arg<'a>
    ensures rule { rule_in result ≡ flag id.entry.now }
    ensures local { IsLocalArg result }
{
    Arg::new(alloc, id).long(id).action(ArgAction::SetTrue)
}

/// A command without help and version.
#[tactic(auto, unfolding(crate::specs::Forms::form_of, crate::specs::Forms::IsLocal, crate::specs::Forms::plain))]
fn plain<'a>(alloc: Global, name: &'a str) -> Command<'a>
    ensures form { form_of result ≡ plain name.entry.now }
    ensures local { IsLocal result }
{
    Command::new(alloc, name)
        .disable_help_flag(true)
        .disable_version_flag(true)
}

/// The command with one argument more.
#[tactic(auto, unfolding(crate::specs::Forms::form_of, crate::specs::Forms::rule_in, crate::specs::Forms::IsLocal, crate::specs::Forms::IsLocalArg, crate::specs::Forms::taking))]
fn with_arg<'a>(command: Command<'a>, arg: Arg<'a>) -> Result<Command<'a>, AllocError>
    requires arg { IsLocalArg arg }
    requires command { IsLocal command }
    ensures form { IfOk result (λ c. form_of c ≡ taking (form_of command.entry) (rule_in arg.entry)) }
    ensures local { IfOk result (λ c. IsLocal c) }
{
    command.arg(arg)
}

/// The same, where there is memory for the command.
fn and_arg<'a>(
    command: Result<Command<'a>, AllocError>,
    arg: Arg<'a>,
) -> Result<Command<'a>, AllocError>
    requires arg { IsLocalArg arg }
    requires command { IfOk command (λ c. IsLocal c) }
    ensures form { IfOk result (λ c. IsOkAnd command.entry (λ d. form_of c ≡ taking (form_of d) (rule_in arg.entry))) }
    ensures local { IfOk result (λ c. IsLocal c) }
{
    match command {
        Ok(command) => with_arg(command, arg),
        Err(why) => {
            drop(arg);
            Err(why)
        }
    }
}

/// The command with one command below it more, where there is memory for that one.
#[tactic(auto, unfolding(crate::specs::Forms::form_of, crate::specs::Forms::IsLocal, crate::specs::Forms::above))]
fn with_command<'a>(
    command: Command<'a>,
    sub: Result<Command<'a>, AllocError>,
) -> Result<Command<'a>, AllocError>
    requires sub { IfOk sub (λ s. IsLocal s) }
    requires command { IsLocal command }
    ensures form { IfOk result (λ c. IsOkAnd sub.entry (λ s. form_of c ≡ above (form_of command.entry) (form_of s))) }
    ensures local { IfOk result (λ c. IsLocal c) }
{
    match sub {
        Ok(sub) => command.subcommand(sub),
        Err(why) => {
            drop(command);
            Err(why)
        }
    }
}

/// The same, where there is memory for the command.
fn and_command<'a>(
    command: Result<Command<'a>, AllocError>,
    sub: Result<Command<'a>, AllocError>,
) -> Result<Command<'a>, AllocError>
    requires sub { IfOk sub (λ s. IsLocal s) }
    requires command { IfOk command (λ c. IsLocal c) }
    ensures form { IfOk result (λ c. IsOkAnd command.entry (λ d. IsOkAnd sub.entry (λ s. form_of c ≡ above (form_of d) (form_of s)))) }
    ensures local { IfOk result (λ c. IsLocal c) }
{
    match command {
        Ok(command) => with_command(command, sub),
        Err(why) => {
            drop(sub);
            Err(why)
        }
    }
}

/// The command with this required argument more, where there is memory for the command.
fn and_wanted<'a>(
    alloc: Global,
    command: Result<Command<'a>, AllocError>,
    id: &'a str,
) -> Result<Command<'a>, AllocError>
    requires { IfOk command (λ c. IsLocal c) }
    ensures form { IfOk result (λ c. IsOkAnd command.entry (λ d. form_of c ≡ taking (form_of d) (wanted id.entry.now))) }
    ensures local { IfOk result (λ c. IsLocal c) }
{
    and_arg(command, wanted(alloc, id))
}

/// The command with these required arguments more.
fn with_wanted<'a>(
    alloc: Global,
    command: Command<'a>,
    ids: &[&'a str],
) -> Result<Command<'a>, AllocError>
    requires { IsLocal command }
    ensures form { IfOk result (λ c. form_of c ≡ wanting (form_of command.entry) (texts_now ids.now)) }
    ensures local { IfOk result (λ c. IsLocal c) }
{
    let mut command = Ok(command);
    for id in ids {
        command = and_wanted(alloc, command, id);
    }
    command
}

/// A command with these required arguments, and with addresses after them.
fn peered<'a>(alloc: Global, name: &'a str, ids: &[&'a str]) -> Result<Command<'a>, AllocError>
    ensures form { IfOk result (λ c. form_of c ≡ peered name.entry.now (texts_now ids.now)) }
    ensures local { IfOk result (λ c. IsLocal c) }
{
    and_arg(
        with_wanted(alloc, plain(alloc, name), ids),
        addresses(alloc),
    )
}

/// `replay`.
#[tactic(auto, unfolding(crate::specs::Forms::replay))]
fn replay<'a>(alloc: Global) -> Command<'a>
    ensures form { form_of result ≡ replay }
    ensures local { IsLocal result }
{
    plain(alloc, "replay")
}

/// `soak SEED COUNT`.
fn soak<'a>(alloc: Global) -> Result<Command<'a>, AllocError>
    ensures form { IfOk result (λ c. form_of c ≡ soak) }
    ensures local { IfOk result (λ c. IsLocal c) }
{
    with_wanted(alloc, plain(alloc, "soak"), &["seed", "count"])
}

/// The command with the flags that say what a file is made as, where there is memory for the command.
fn making<'a>(
    alloc: Global,
    command: Result<Command<'a>, AllocError>,
) -> Result<Command<'a>, AllocError>
    requires { IfOk command (λ c. IsLocal c) }
    ensures form { IfOk result (λ c. IsOkAnd command.entry (λ d. form_of c ≡ making (form_of d))) }
    ensures local { IfOk result (λ c. IsLocal c) }
{
    let command = and_arg(command, flag(alloc, "careful"));
    and_arg(command, flag(alloc, "v2"))
}

/// `node CLUSTER REPLICA FILE TURNS ADDR..` with `--fresh` or not, with `--careful` or not, with `--v2` or not.
fn node<'a>(alloc: Global) -> Result<Command<'a>, AllocError>
    ensures form { IfOk result (λ c. form_of c ≡ node) }
    ensures local { IfOk result (λ c. IsLocal c) }
{
    let command = peered(alloc, "node", &["cluster", "replica", "file", "turns"]);
    making(alloc, and_arg(command, flag(alloc, "fresh")))
}

/// `client CLUSTER ID TURNS ADDR..` with `--v2` or not.
fn client<'a>(alloc: Global) -> Result<Command<'a>, AllocError>
    ensures form { IfOk result (λ c. form_of c ≡ client) }
    ensures local { IfOk result (λ c. IsLocal c) }
{
    let command = peered(alloc, "client", &["cluster", "id", "turns"]);
    and_arg(command, flag(alloc, "v2"))
}

/// `trial CLUSTER TURNS FILES ADDR..`.
#[tactic(auto, unfolding(crate::specs::Forms::trial))]
fn trial<'a>(alloc: Global) -> Result<Command<'a>, AllocError>
    ensures form { IfOk result (λ c. form_of c ≡ trial) }
    ensures local { IfOk result (λ c. IsLocal c) }
{
    peered(alloc, "trial", &["cluster", "turns", "files"])
}

/// `migrate CLUSTER REPLICA N FILE`.
fn migrate<'a>(alloc: Global) -> Result<Command<'a>, AllocError>
    ensures form { IfOk result (λ c. form_of c ≡ migrate) }
    ensures local { IfOk result (λ c. IsLocal c) }
{
    with_wanted(
        alloc,
        plain(alloc, "migrate"),
        &["cluster", "replica", "n", "file"],
    )
}

/// The command line without its commands.
#[tactic(auto, unfolding(crate::specs::Forms::form_of, crate::specs::Forms::IsLocal, crate::specs::Forms::top))]
fn top<'a>(alloc: Global) -> Command<'a>
    ensures form { form_of result ≡ top }
    ensures local { IsLocal result }
{
    plain(alloc, "nozhgiva")
        .no_binary_name(true)
        .disable_help_subcommand(true)
        .subcommand_required(true)
}

/// The command line with the commands that run a group in one process.
fn running<'a>(alloc: Global) -> Result<Command<'a>, AllocError>
    ensures form { IfOk result (λ c. form_of c ≡ running) }
    ensures local { IfOk result (λ c. IsLocal c) }
{
    let command = with_command(top(alloc), Ok(replay(alloc)));
    and_command(command, soak(alloc))
}

/// The same with `node`.
fn with_node<'a>(alloc: Global) -> Result<Command<'a>, AllocError>
    ensures form { IfOk result (λ c. form_of c ≡ above running node) }
    ensures local { IfOk result (λ c. IsLocal c) }
{
    and_command(running(alloc), node(alloc))
}

/// The same with `client`.
fn with_client<'a>(alloc: Global) -> Result<Command<'a>, AllocError>
    ensures form { IfOk result (λ c. form_of c ≡ above (above running node) client) }
    ensures local { IfOk result (λ c. IsLocal c) }
{
    and_command(with_node(alloc), client(alloc))
}

/// The same with `trial`.
fn with_trial<'a>(alloc: Global) -> Result<Command<'a>, AllocError>
    ensures form { IfOk result (λ c. form_of c ≡ above (above (above running node) client) trial) }
    ensures local { IfOk result (λ c. IsLocal c) }
{
    and_command(with_client(alloc), trial(alloc))
}

/// The command line with all of its commands.
pub fn command<'a>(alloc: Global) -> Result<Command<'a>, AllocError>
    ensures { IfOk result (λ c. form_of c ≡ the_command) }
{
    and_command(with_trial(alloc), migrate(alloc))
}
