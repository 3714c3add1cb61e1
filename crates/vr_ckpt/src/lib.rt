//! Checkpoints: the texts of a state saved in blocks of the grid, of which only those that changed are written. A block has 4,096 bytes and is read
//! by its name.
#![tactic(auto)]

mod block;
mod check;
mod found;
mod grid;
mod laws;
mod loading;
mod looking;
mod name;
mod naming;
mod places;
mod plan;
mod reading;
mod root;
mod saving;
mod table;
mod view;
mod writing;

pub use block::{BLOCK_SIZE, Block, DATA, PAYLOAD_AT, PAYLOAD_SIZE, ROOT};
pub use found::Load;
pub use grid::grid_laws;
pub use laws::checkpoint_laws;
pub use loading::load;
pub use looking::worn;
pub use name::{Name, NameList};
pub use naming::{is_block_of, is_block_on};
pub use reading::read_block;
pub use saving::{SavedCheckpoint, save};
pub use table::{Payload, PayloadTable};
pub use view::{BlockView, view_of};
pub use vr_disk::Halt as CkptFault;
pub use vr_state::{ReplyBody, SessionAnswer, State, StateFault, Texts};
pub use writing::{put_block, write_at, write_block};
