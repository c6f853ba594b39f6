// Names, kinds and times as text: definitions, what equal texts tell, and the lines written to a lent output.
#![tactic(auto)]

mod count;
mod lines;
mod marks;
mod names;
mod put;
mod sink;

pub use count::{left_itself, left_line};
pub use names::{Names, index_lines};
pub use put::{put_itself, put_line};
