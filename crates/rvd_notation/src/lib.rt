//! How facts are written: the words of sources, kinds and classes, keys, sets of addresses and cells;
//! and how actors and analyzers are named. The listing, the history, the journal, scripts and event
//! files share these spellings.
//!
//! * [`push_value`] appends a whole cell: the word of its source and its fact.
//! * [`push_key`] and [`push_ranges`] append a key and a set of addresses.
//! * [`push_comment_kind`], [`push_bookmark_type`], [`push_form`] and [`push_range`] append parts of facts.
//! * [`push_actor`] appends an actor: a session or a worker.
//! * [`analyzer_word`], [`source_word`], [`kind_word`], [`class_word`], [`perm_word`], [`init_word`] and [`hex2`] are the fixed words.
//!
//! Where there is no memory, a call leaves what it appends to as it was; [`push_form`] and [`push_range`] alone may leave a
//! front. The definitions stand in `specs/`: `Words`, `Values` with `value_text`, and `Actors` with `actor_text`.
#![tactic(auto)]

mod actors;
mod cells;
mod keys;
mod words;

pub use actors::{analyzer_word, push_actor};
pub use cells::{push_bookmark_type, push_comment_kind, push_form, push_value};
pub use keys::{push_key, push_range, push_ranges};
pub use words::{class_word, hex2, init_word, kind_word, perm_word, source_word};
