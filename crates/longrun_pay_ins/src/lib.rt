// Both sides asked for the shortfalls of an image (02 6/12): with room for the figures, and then with any. A figure is paid in before a
// close.
#![tactic(auto)]

mod asking;
mod pay_ins;

pub use asking::ask_now_and_then;
