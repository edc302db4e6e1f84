//! Why `recorderd` refuses a command: each refusal, its name, which is printed, and a text that says
//! what it means, what it comes from, and what to do. `docs/ERRORS.md` is made of these texts.
#![tactic(auto)]

mod area;
mod digest_fault;
mod explaining;
mod exports;
mod name;
mod peers;
mod recordings;
mod refusal;
mod stopped;
mod system;

pub use area::Area;
pub use digest_fault::DigestFault;
pub use explaining::{explain, explanation};
pub use name::{Detail, Name, write_refusal};
pub use refusal::Refusal;
pub use stopped::Stopped;
