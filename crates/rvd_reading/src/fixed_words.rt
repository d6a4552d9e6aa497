ghost use Rattle.std.specs.Prelude.{◌≡◌};
ghost use Rattle.rvd_reading.specs.Steps.{with_rest};
ghost use Rattle.rvd_reading.specs.Fixed.{analyzers, classes, fixed, kinds, sources};

use crate::errors::Unread;
use crate::rest::Rest;
use rvd_ask::Analyzer;
use rvd_fact::{Kind, RefClass, Source};

/// The word of a kind.
pub fn kind(rest: &mut Rest) -> Result<Kind, Unread>
    ensures { fixed kinds rest.old ≡ with_rest rest.new result }
{
    if rest.strip(b"block") {
        Ok(Kind::Block)
    } else if rest.strip(b"mark") {
        Ok(Kind::Mark)
    } else if rest.strip(b"func") {
        Ok(Kind::Func)
    } else if rest.strip(b"body") {
        Ok(Kind::Body)
    } else if rest.strip(b"symbol") {
        Ok(Kind::Symbol)
    } else if rest.strip(b"comment") {
        Ok(Kind::Comment)
    } else if rest.strip(b"bookmark") {
        Ok(Kind::Bookmark)
    } else if rest.strip(b"unit") {
        Ok(Kind::Unit)
    } else if rest.strip(b"ref") {
        Ok(Kind::Ref)
    } else {
        Err(Unread)
    }
}

/// The word of a source.
pub fn source(rest: &mut Rest) -> Result<Source, Unread>
    ensures { fixed sources rest.old ≡ with_rest rest.new result }
{
    if rest.strip(b"default") {
        Ok(Source::Default)
    } else if rest.strip(b"analysis") {
        Ok(Source::Analysis)
    } else if rest.strip(b"imported") {
        Ok(Source::Imported)
    } else if rest.strip(b"user") {
        Ok(Source::UserDefined)
    } else {
        Err(Unread)
    }
}

/// The word of a class of references.
pub fn class(rest: &mut Rest) -> Result<RefClass, Unread>
    ensures { fixed classes rest.old ≡ with_rest rest.new result }
{
    if rest.strip(b"call") {
        Ok(RefClass::Call)
    } else if rest.strip(b"jump") {
        Ok(RefClass::Jump)
    } else if rest.strip(b"cond") {
        Ok(RefClass::Cond)
    } else if rest.strip(b"data") {
        Ok(RefClass::Datum)
    } else if rest.strip(b"read") {
        Ok(RefClass::Read)
    } else if rest.strip(b"write") {
        Ok(RefClass::Write)
    } else {
        Err(Unread)
    }
}

/// The word of an analyzer.
pub fn analyzer(rest: &mut Rest) -> Result<Analyzer, Unread>
    ensures { fixed analyzers rest.old ≡ with_rest rest.new result }
{
    if rest.strip(b"flow") {
        Ok(Analyzer::Flow)
    } else if rest.strip(b"refs") {
        Ok(Analyzer::Refs)
    } else if rest.strip(b"funcs") {
        Ok(Analyzer::Funcs)
    } else if rest.strip(b"body") {
        Ok(Analyzer::Body)
    } else if rest.strip(b"strings") {
        Ok(Analyzer::Strings)
    } else {
        Err(Unread)
    }
}
