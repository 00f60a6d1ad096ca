//! What every crate of hc speaks of: texts, lists, places and refusals; sources and sinks that
//! count their faults; a counter that costs nothing.
//!
//! `laws::a_text_is_its_lines`: a text is its whole lines, each with its LF, and a rest without LF, and there is no
//! other way to cut it so. `VecSource` fails exactly at the calls of its plan, and `VecSink` there and where it has
//! no room. `StdSource` and `StdSink` count each failure that they answer, and lose no byte where the reader or
//! writer below tells its bytes. `Counter::tick` adds one; texts, lent texts and lists are what they were made of;
//! `name_of_code` is the table of refusals.
#![tactic(auto)]

mod boxed;
pub mod bytes;
pub mod codes;
mod console;
mod counter;
mod cow;
mod fault;
pub mod laws;
mod list;
mod option;
pub mod paths;
mod place;
mod sink;
mod source;
mod tape;
mod text;

pub use boxed::Boxed;
pub use console::{StdSink, StdSource};
pub use counter::Counter;
pub use cow::CowStr;
pub use fault::{AtByte, AtLine, Fault};
pub use list::List;
pub use option::copy_option;
pub use place::{Place, Refusal, Span, spanned};
pub use sink::Sink;
pub use source::{Failed, Source};
pub use tape::{VecSink, VecSource};
pub use text::Text;

/// Memory was refused. It is std's error under the name that hc's answers have.
pub use std::alloc::AllocError as NoMemory;
