//! What a schedule comes to, in few numbers.
ghost use Rattle.std.specs.Prelude.{◌≡◌, ◌++◌, codes, IfOk, OnOk};
ghost use Rattle.hex.specs.Hex.{encode_lower};
ghost use Rattle.cmd_soak.specs.Summing.{summary_text};

use std::alloc::{AllocError, Global};
use std::fmt;
use vr_base::{ByteList, Sum};

/// How many faults came to be, and how many were kept out.
#[derive(Clone, Copy, Debug, PartialEq, Eq)]
pub struct Faults {
    pub done: u64,
    pub kept_out: u64,
}

impl fmt::Display for Faults {
    ghost use Rattle.std.specs.Prelude.{Some};
    ghost use Rattle.cmd_soak.specs.Summing.{faults_text};

    ghost output = { λ f. Some (faults_text f) };

    fn fmt<W: fmt::Write>(&self, f: &mut fmt::Formatter<W>) -> fmt::Result {
        let done = self.done;
        let kept_out = self.kept_out;
        write!(f, "done {done}\nkept out {kept_out}\n")
    }
}

/// What a schedule comes to.
#[derive(Clone, Copy, Debug, PartialEq, Eq)]
pub struct Summary {
    /// How many lines it has after the one that makes the group.
    pub events: u32,
    pub messages: u64,
    /// How many operations were applied, by all replicas.
    pub commits: u64,
    /// The greatest view of a replica.
    pub view: u32,
    pub faults: Faults,
    /// The name of the text of all outputs.
    pub sum: Sum,
}

impl fmt::Display for Summary {
    ghost use Rattle.std.specs.Prelude.{Some};
    ghost use Rattle.cmd_soak.specs.Summing.{counts_text};

    ghost output = { λ s. Some (counts_text s) };

    fn fmt<W: fmt::Write>(&self, f: &mut fmt::Formatter<W>) -> fmt::Result {
        let events = self.events;
        let messages = self.messages;
        let commits = self.commits;
        let view = self.view;
        write!(
            f,
            "events {events}\nmessages {messages}\ncommits {commits}\nview {view}\n"
        )
    }
}

/// The line of a name.
fn put_sum(alloc: Global, text: &mut ByteList, sum: Sum) -> Result<(), AllocError>
    ensures { OnOk result (text.new ≡ text.old ++ codes "sum " ++ encode_lower sum.0 ++ codes "\n") }
{
    let digits = hex::encode(alloc, sum.0.as_slice())?;
    text.extend("sum ".as_bytes())?;
    text.extend(digits.as_bytes())?;
    text.extend("\n".as_bytes())
}

impl Summary {
    /// Its text, a line for each number.
    #[tactic(auto, using(std::proofs::lemmas::Grind::common_steps), unfolding(crate::specs::Summing::summary_text))]
    pub fn text(&self, alloc: Global) -> Result<ByteList, AllocError>
        ensures { IfOk result (λ t. t ≡ summary_text self.now) }
    {
        let mut text = ByteList::new(alloc);
        text.extend(self.to_string(alloc)?.as_bytes())?;
        text.extend(self.faults.to_string(alloc)?.as_bytes())?;
        put_sum(alloc, &mut text, self.sum)?;
        Ok(text)
    }
}
