//! What a server of browsers decides: its command line and its end, which bytes begin a request, and whose pages may send requests. Also
//! how long it waits for a client, what it reports to its operator once, the board that a file keeps, captions, and who is connected. It has
//! what an operator types, which places are free for connections, and how a stop ends them.
//! Nothing here opens a socket.
#![tactic(auto)]

mod captions;
mod closing;
mod command;
mod end;
mod farewell;
mod kept_board;
mod kept_file;
mod notices;
mod opening;
mod origins;
mod patience;
mod places;
mod star;
mod who;
mod words;

pub use captions::{CaptionFault, check_captions};
pub use closing::{Closing, Parted, close_code};
pub use command::{Command, Typed, command_of, typed_by};
pub use end::{Attempt, ServiceEnd};
pub use farewell::{Farewell, Parting};
pub use kept_board::{KeptBoard, Unkept};
pub use kept_file::{FiledText, KeptFile, KeptFileFault};
pub use notices::{Notice, Told, notice_of, notice_of_accept};
pub use opening::{Opening, opening_of, surplus_refusal};
pub use origins::{Address, own_origins};
pub use patience::{Heard, Presence, head_wait};
pub use places::{Linked, Links, Place, Places};
pub use star::star_of_printed;
pub use who::who_text;
pub use words::{LinkWords, ServiceWords, lasting_service_words, service_words};
