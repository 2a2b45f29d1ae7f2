//! By the call that is tested, with the gates and the scripts.

mod gates;
mod runs;
mod scripts;
mod top;
