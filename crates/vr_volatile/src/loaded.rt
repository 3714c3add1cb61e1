//! What a checkpoint that was loaded leaves.
ghost use Rattle.std.specs.Prelude.{◌≡◌, ◌∷◌, [], IfOk, OnOk};
ghost use Rattle.vr_state.specs.StateTexts.{state_decoded};
ghost use Rattle.vr_ckpt.specs.declared.found.Load.{Load};
ghost use Rattle.vr_rules.specs.Words.{loads, usable, with_missing, with_state};

use crate::Replica;
use std::alloc::{AllocError, Global};
use vr_base::{NoMemory, Seq, Version};
use vr_ckpt::{Load, Name, NameList, PayloadTable, State, StateFault, Texts};

// The state of these texts, none where they don't decode, or the version doesn't allow it.
#[tactic(auto, using(crate::proofs::Loads::usable_ok, crate::proofs::Loads::usable_unfit, crate::proofs::Loads::usable_err))]
fn decode(alloc: Global, texts: &Texts, version: Version) -> Result<Option<State>, NoMemory>
    ensures { IfOk result (λ s. s ≡ usable version (state_decoded texts.now)) }
{
    match State::decode_state(alloc, texts) {
        Ok(state) => {
            if state.fits(version) {
                Ok(Some(state))
            } else {
                drop(state);
                Ok(None)
            }
        }
        Err(StateFault::NoMemory) => Err(NoMemory),
        Err(_) => Ok(None),
    }
}

pub(crate) fn only(alloc: Global, name: Name) -> Result<NameList, AllocError>
    ensures { IfOk result (λ names. names ≡ name ∷ []) }
{
    let mut names = Seq::new(alloc);
    names.push(name)?;
    Ok(names)
}

impl Replica {
    // The state of the checkpoint is there.
    #[tactic(auto, unfolding(vr_rules::specs::Words::with_state))]
    fn take_state(&mut self, alloc: Global, table: PayloadTable, state: State)
        ensures taken { self.new ≡ with_state table state self.old }
        ensures view { self.new.view ≡ self.old.view }
        ensures saved { self.new.saved ≡ self.old.saved }
    {
        self.table = table;
        self.state = state;
        self.missing = Seq::new(alloc);
    }

    // The root counts as missing.
    fn miss_root(&mut self, alloc: Global) -> Result<(), NoMemory>
        ensures missing { OnOk result (self.new ≡ with_missing (self.old.root ∷ []) self.old) }
        ensures view { OnOk result (self.new.view ≡ self.old.view) }
        ensures saved { OnOk result (self.new.saved ≡ self.old.saved) }
    {
        let names = only(alloc, self.root)?;
        self.take_missing(names);
        Ok(())
    }

    // The state that was loaded, or what is missing of it. A root without a state that can be used counts as missing.
    #[tactic(auto, using(crate::proofs::Loads::loads_state, crate::proofs::Loads::loads_none))]
    fn take_texts(
        &mut self,
        alloc: Global,
        texts: Texts,
        table: PayloadTable,
    ) -> Result<(), NoMemory>
        ensures loaded { OnOk result (self.new ≡ loads self.old.root (Load.Loaded texts table) self.old) }
        ensures view { OnOk result (self.new.view ≡ self.old.view) }
        ensures saved { OnOk result (self.new.saved ≡ self.old.saved) }
    {
        let decoded = decode(alloc, &texts, self.version());
        drop(texts);
        match decoded {
            Ok(Some(state)) => {
                self.take_state(alloc, table, state);
                Ok(())
            }
            Ok(None) => {
                drop(table);
                self.miss_root(alloc)
            }
            Err(wanted) => {
                drop(table);
                Err(wanted)
            }
        }
    }

    /// What the disk had of the checkpoint is taken: its state, or what is missing of it.
    pub fn take_load(&mut self, alloc: Global, found: Load) -> Result<(), NoMemory>
        ensures loaded { OnOk result (self.new ≡ loads self.old.root found self.old) }
        ensures view { OnOk result (self.new.view ≡ self.old.view) }
        ensures saved { OnOk result (self.new.saved ≡ self.old.saved) }
    {
        match found {
            Load::Loaded(texts, table) => self.take_texts(alloc, texts, table),
            Load::Missing(names) => {
                self.take_missing(names);
                Ok(())
            }
        }
    }
}
