//! The forms of a journal's events and replies that are a word alone, or a word and a number: one list of each, from which both
//! printing and reading are made.
//!
//! A form has a variant, with the name and the type of its number where it has one, and its word, which ends with a space where a
//! number follows: `$($variant:ident $(($part:ident: $number:ident))? $word:literal,)*`.

/// Hands the forms of events to a macro of the caller's, behind what the caller passes to it. A begin, an edit, an end and the
/// switch of an analyzer have other parts and aren't among them.
#[macro_export]
macro_rules! event_forms {
    ($each:ident $args:tt) => {
        $each! { $args
            Undo b"undo",
            Redo b"redo",
            Full b"full",
            Cancel b"cancel",
            Read b"read",
            Wait b"wait",
            Close b"close",
            Take(items: u32) b"take ",
            Offer(ticket: u64) b"offer ",
        }
    };
}

/// Hands the forms of replies to a macro of the caller's, behind what the caller passes to it. A job, verdicts and a refusal have
/// other parts and aren't among them.
#[macro_export]
macro_rules! reply_forms {
    ($each:ident $args:tt) => {
        $each! { $args
            Entry(number: u64) b"entry ",
            Changed(changes: u32) b"changed ",
            Waiting(live: u32) b"waiting ",
            Committed(step: u64) b"committed ",
            RolledBack b"rolled back",
            StepNo(step: u64) b"step ",
            At(steps: u64) b"at ",
            SettledAt(step: u64) b"settled ",
            Voided b"voided",
            Closed(aborted: u32) b"closed ",
        }
    };
}

/// A match that appends the text of a listed form to `out`, and has the caller's arms for the other forms.
macro_rules! push_forms {
    (
        { $out:ident, $value:ident: $type:ident, $($arms:tt)* }
        $($variant:ident $(($part:ident: $number:ident))? $word:literal,)*
    ) => {
        match $value {
            $($type::$variant $(($part))? => $crate::forms::push_form!($out, $word $(, u64::from(*$part))?),)*
            $($arms)*
        }
    };
}

/// Appends a word to `out`, and the number that follows it.
macro_rules! push_form {
    ($out:ident, $word:literal) => {
        $out.extend_from_slice($word)
    };
    ($out:ident, $word:literal, $number:expr) => {
        $crate::words::push_count($out, $word, $number)
    };
}

pub(crate) use push_form;
pub(crate) use push_forms;
