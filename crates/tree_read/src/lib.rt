//! What reading commands do on a volume in use: paths are walked, and of what they lead to something is shown.
#![tactic(auto)]

mod above;
mod below;
mod data;
mod line;
mod links;
mod load;
mod node;
mod outline;
mod room;
mod shown;
mod standing;
mod stop;
mod walk;

pub use above::Above;
pub use below::{Below, load_below};
pub use data::{find_plain, is_of_directory, name_or, plain_content, read_through};
pub use dir_index::lookup_in;
pub use file_record::{BaseFile, FileParts, Held};
pub use load::{load_file, load_node};
pub use node::{Standard, find_part, is_directory, read_standard};
pub use outline::{has_point, links_of};
pub use room::{df, free_records};
pub use shown::{Shown, show_at};
pub use standing::Standing;
pub use stop::Stop;
pub use walk::{Reached, enter, reach, resolve};
