ghost use Rattle.std.specs.Prelude.{◌≡◌, ◌++◌, flat_map, map, codes, OnOk, OnErr};
ghost use Rattle.rvd_text.specs.Hex.{hex8};
ghost use Rattle.rvd_notation.specs.Pieces.{Keeps};
ghost use Rattle.rvd_query.specs.Reply.{words_text, xref_text};

use rvd_fact::{Addr, RefClass};
use rvd_notation::class_word;
use rvd_text::push_hex8;
use std::alloc::AllocError;

fn push_next_address(out: &mut Vec<u8>, at: Addr) -> Result<(), AllocError>
    ensures ok { OnOk result (out.new.items ≡ out.old.items ++ (codes " " ++ hex8 at)) }
    ensures err { OnErr result (Keeps out.old.items out.new.items) }
{
    out.push(b' ')?;
    push_hex8(out, at)
}

// Appends addresses, each with a space before it.
fn push_more_addresses(out: &mut Vec<u8>, addresses: &[Addr]) -> Result<(), AllocError>
    ensures ok { OnOk result (out.new.items ≡ out.old.items ++ flat_map (λ a. codes " " ++ hex8 a) addresses.now) }
    ensures err { OnErr result (Keeps out.old.items out.new.items) }
{
    for at in addresses {
        push_next_address(out, *at)?;
    }
    Ok(())
}

/// Appends addresses with a space between each two, or `none` where there are none.
pub fn push_addresses(out: &mut Vec<u8>, addresses: &[Addr]) -> Result<(), AllocError>
    ensures ok { OnOk result (out.new.items ≡ out.old.items ++ words_text (map hex8 addresses.now)) }
    ensures err { OnErr result (Keeps out.old.items out.new.items) }
{
    let [first, rest @ ..] = addresses else {
        return out.extend_from_slice(b"none");
    };
    push_hex8(out, *first)?;
    push_more_addresses(out, rest)
}

fn push_xref(out: &mut Vec<u8>, xref: (Addr, u8, RefClass)) -> Result<(), AllocError>
    ensures ok { OnOk result (out.new.items ≡ out.old.items ++ xref_text xref) }
    ensures err { OnErr result (Keeps out.old.items out.new.items) }
{
    push_hex8(out, xref.0)?;
    out.push(b':')?;
    out.extend_from_slice(class_word(xref.2))
}

fn push_next_xref(out: &mut Vec<u8>, xref: (Addr, u8, RefClass)) -> Result<(), AllocError>
    ensures ok { OnOk result (out.new.items ≡ out.old.items ++ (codes " " ++ xref_text xref)) }
    ensures err { OnErr result (Keeps out.old.items out.new.items) }
{
    out.push(b' ')?;
    push_xref(out, xref)
}

// Appends references, each with a space before it.
fn push_more_xrefs(out: &mut Vec<u8>, xrefs: &[(Addr, u8, RefClass)]) -> Result<(), AllocError>
    ensures ok { OnOk result (out.new.items ≡ out.old.items ++ flat_map (λ x. codes " " ++ xref_text x) xrefs.now) }
    ensures err { OnErr result (Keeps out.old.items out.new.items) }
{
    for xref in xrefs {
        push_next_xref(out, *xref)?;
    }
    Ok(())
}

/// Appends references, each as its place and class, with a space between each two, or `none` where there are none.
pub fn push_xrefs(out: &mut Vec<u8>, xrefs: &[(Addr, u8, RefClass)]) -> Result<(), AllocError>
    ensures ok { OnOk result (out.new.items ≡ out.old.items ++ words_text (map xref_text xrefs.now)) }
    ensures err { OnErr result (Keeps out.old.items out.new.items) }
{
    let [first, rest @ ..] = xrefs else {
        return out.extend_from_slice(b"none");
    };
    push_xref(out, *first)?;
    push_more_xrefs(out, rest)
}
