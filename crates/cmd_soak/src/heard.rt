//! What was heard of the outputs so far.
ghost use Rattle.sha2.specs.Hashers.{Holds256};
ghost use Rattle.std.specs.Prelude.{◌≡◌, ◌+◌, ◌++◌, ◌∷◌, [], ℕ, List, IfOk, OnOk};
ghost use Rattle.vr_base.specs.Bytes.{name_of};
ghost use Rattle.cmd_soak.specs.Heard.{Counts, CountsOn, HasCounted, HasHeard, Hears};

use crate::Faults;
use sha2::{Digest, Sha256};
use vr_base::{NoMemory, Sum};
use vr_draws::Requests;
use vr_msg::Output;

/// What was heard of the outputs so far; none of them is kept.
#[derive(Drop)]
pub struct Heard {
    /// The numbers of the clients' next requests.
    pub requests: Requests,
    /// How many operations were applied.
    pub commits: u64,
    pub faults: Faults,
    /// It has taken the text of all outputs.
    pub hasher: Sha256,
}

/// One more; a count at its end has no room.
fn one_more(count: u64) -> Result<u64, NoMemory>
    ensures { IfOk result (λ more. more ≡ count + 1) }
{
    match count.checked_add(1) {
        Some(more) => Ok(more),
        None => Err(NoMemory),
    }
}

impl Heard {
    /// Nothing was heard yet.
    #[tactic(auto, using(std::proofs::lemmas::Grind::common_steps, vr_group::proofs::Numbering::text_none))]
    pub fn new() -> Heard
        ensures { HasHeard result [] }
    {
        Heard {
            requests: Requests::new(),
            commits: 0,
            faults: Faults {
                done: 0,
                kept_out: 0,
            },
            hasher: Sha256::new(),
        }
    }

    /// Counts an output.
    fn count(&mut self, output: &Output) -> Result<(), NoMemory>
        ensures counted { OnOk result (HasCounted self.old self.new output.now) }
        ensures requests { self.new.requests ≡ self.old.requests }
        ensures hasher { self.new.hasher ≡ self.old.hasher }
    {
        match output {
            Output::Commit(_) => self.commits = one_more(self.commits)?,
            Output::Done => self.faults.done = one_more(self.faults.done)?,
            Output::KeptOut => self.faults.kept_out = one_more(self.faults.kept_out)?,
            _ => {}
        }
        Ok(())
    }

    /// One output more; of a message only the text is heard.
    fn hear_output(&mut self, output: &Output) -> Result<(), NoMemory>
        ensures counts { OnOk result (CountsOn self.old self.new (output.now ∷ [])) }
        ensures hasher { self.new.hasher ≡ self.old.hasher }
    {
        if let Output::Send(_) = output {
            return Ok(());
        }
        self.count(output)?;
        self.requests.hear(output);
        Ok(())
    }

    /// More outputs, without their text.
    fn hear_outputs(&mut self, outputs: &[Output]) -> Result<(), NoMemory>
        ensures counts { OnOk result (CountsOn self.old self.new outputs.now) }
        ensures hasher { self.new.hasher ≡ self.old.hasher }
    {
        for output in outputs {
            self.hear_output(output)?;
        }
        Ok(())
    }

    /// More outputs, and their text.
    pub fn hear(&mut self, outputs: &[Output], text: &[u8]) -> Result<(), NoMemory>
        ensures { OnOk result (Hears self.old self.new outputs.now text.now) }
    {
        self.hear_outputs(outputs)?;
        self.hasher.update(text);
        Ok(())
    }

    /// The name of the text of all outputs.
    #[tactic(auto, unfolding(vr_base::specs::Bytes::name_of))]
    pub fn sum(self) -> Sum
        ensures { (bytes : List ℕ) → Holds256 self.hasher bytes → result.0 ≡ name_of bytes }
    {
        let digest = self.hasher.finalize();
        let mut sum = [0; 16];
        sum.copy_from_slice(&digest[..16]);
        Sum(sum)
    }
}
