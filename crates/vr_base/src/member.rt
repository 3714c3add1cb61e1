//! The text of a member.
use crate::Config;
use std::fmt;

/// A member by its group, its number and the size of the group.
#[derive(Clone, Copy)]
pub struct MemberText {
    pub config: Config,
}

impl fmt::Display for MemberText {
    ghost use Rattle.std.specs.Prelude.{Some};
    ghost use Rattle.vr_base.specs.Texts.{config_text};

    ghost output = { λ m. Some (config_text m.config) };

    fn fmt<W: fmt::Write>(&self, f: &mut fmt::Formatter<W>) -> fmt::Result {
        let cluster = self.config.cluster;
        let replica = self.config.replica;
        let n = self.config.n;
        write!(f, "{cluster} {replica} {n}")
    }
}
