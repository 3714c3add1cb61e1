//! What a program is started with.
ghost use Rattle.vr_top.specs.Making.{Gives, Ground, Path as ToldPath, Words, texts_told};

use crate::maker::Maker;

/// Why something isn't told.
#[derive(Clone, Copy, Debug, PartialEq, Eq)]
pub enum Untold {
    NoMemory,
    /// There is none, or it is no text.
    NoText,
}

/// Gives what a program was started with, beside making its outside.
pub trait Program: Maker {
    /// Takes what a run stands on: a descriptor for each standard stream, and the stack; `false` where not all of it is there. This call, with its
    /// answer, is then the last one of `made`.
    fn take_ground(&mut self) -> bool
        ensures { Gives Self.made self.old self.new (Ground result) };

    /// The words of the command line; the first of them is the program's name. This call, with what it told, is then the last one of `made`, also
    /// after an `Err`.
    fn words(&mut self) -> Result<Vec<String>, Untold>
        ensures { Gives Self.made self.old self.new (Words (texts_told result)) };

    /// Where the program stands. This call, with what it told, is then the last one of `made`, also after an `Err`.
    fn path(&mut self) -> Result<Self::Path, Untold>
        ensures { Gives Self.made self.old self.new (ToldPath result) };
}
