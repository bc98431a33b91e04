//! Where the bytes of a run come from and go to: traits for what is outside, calls that read a whole file and
//! write a whole piece, two fakes in memory that expose their state, files that note the names that they were
//! asked for, and the real files and streams, with twins of these over fakes.
//!
//! ```text
//! let bytes = read_all(rt.alloc(), &mut RealFiles::new(&rt), "formula.txt", 262_144)?;
//! write_all(&mut RealOut::output(rt.stdout()), &bytes)?;
//! ```
#![tactic(auto)]

mod block;
mod counts;
mod fault;
mod file_system;
mod files;
mod held;
mod mem_files;
mod mem_sink;
mod noting_files;
mod pieces;
mod reading;
mod real_files;
mod real_out;
mod schedule;
mod sink;
mod target;
mod text;
mod twins;
mod writing;

pub use block::Block;
pub use fault::{Failed, TakeFault};
pub use file_system::{FileSystem, SystemFiles};
pub use files::Files;
pub use mem_files::MemFiles;
pub use mem_sink::MemSink;
pub use noting_files::NotingFiles;
pub use pieces::put_pieces;
pub use reading::read_all;
pub use real_files::RealFiles;
pub use real_out::{RealOut, Stream};
pub use sink::Sink;
pub use target::Target;
pub use text::Text;
pub use twins::{TwinFile, TwinFiles, TwinStream};
pub use writing::write_all;
