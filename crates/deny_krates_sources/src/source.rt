ghost use Rattle.std.specs.Prelude.{◌≡◌, ◌<◌, [], All, IfOk, None, map, option_copied, unwrap_or};
ghost use Rattle.std.specs.Result.{result_ok};
ghost use Rattle.form_urlencoded.specs.Form.{plus_to_space, raw_pairs};
ghost use Rattle.url.specs.Parser.{parse_url};
ghost use Rattle.deny_krates_sources.specs.Source.{after, form_text, spec_of, reference_in};
ghost use Rattle.deny_krates_sources.specs.Source.{git_source, crates_io_of, addressed, source_of};

use deny_base_lists::{NoMemory, Text};
use form_urlencoded::raw_pairs;
use percent_encoding::{DecodeError, percent_decode};
use std::alloc::Global;
use url::{ParseError, Url};

/// What the query of a git address names: a branch, a tag, a revision, or none of them.
#[derive(Clone, Copy)]
pub enum GitSpec {
    Any,
    Branch,
    Tag,
    Rev,
}

/// Where a package comes from.
#[derive(Drop)]
pub enum Source {
    /// The public registry; the flag says whether it is named by its sparse index.
    CratesIo(bool),
    /// Another registry, by the address of its index.
    Registry(Url),
    /// Another registry, by the address of its sparse index.
    Sparse(Url),
    /// A git repository: its address without fragment, and the reference that the query of the address names.
    Git {
        url: Url,
        spec: GitSpec,
        spec_value: Option<Text>,
    },
}

/// The reference that the query of a git address names.
#[derive(Drop)]
pub struct GitReference {
    pub spec: GitSpec,
    pub value: Option<Text>,
}

// The rest of a text that begins with a prefix.
#[tactic(auto, unfolding(crate::specs::Source::after))]
fn text_after<'t>(prefix: &str, text: &'t str) -> Option<&'t str>
    ensures { option_copied result ≡ after prefix.now text.now }
{
    text.strip_prefix(prefix)
}

// A part of a query with a space in place of each `+`.
fn spaced(alloc: Global, part: &[u8]) -> Result<Vec<u8>, NoMemory>
    ensures { IfOk result (λ bytes. bytes.items ≡ map plus_to_space part.now) }
{
    let mut bytes = Vec::new(alloc);
    for byte in part {
        bytes.push(if *byte == b'+' { b' ' } else { *byte })?;
    }
    Ok(bytes)
}

// A part of a query decoded, or as it is written where its decoding is no UTF-8.
#[tactic(auto, unfolding(crate::specs::Source::form_text))]
fn decoded(alloc: Global, part: &[u8]) -> Result<Text, NoMemory>
    requires { All (λ byte. byte < 128) part.now }
    ensures { IfOk result (λ text. text ≡ form_text part.now) }
{
    let bytes = spaced(alloc, part)?;
    match percent_decode(bytes.as_slice()).decode_utf8(alloc) {
        Ok(text) => Text::from_str(alloc, text.as_str()),
        Err(DecodeError::Utf8(_)) => Ok(Text::from_string(String::from_utf8_lossy(alloc, part)?)),
        Err(DecodeError::OutOfMemory) => Err(NoMemory),
    }
}

// The kind of reference that a part of this name gives, if any.
#[tactic(auto, unfolding(crate::specs::Source::spec_of))]
fn spec_in(name: &str) -> Option<GitSpec>
    ensures { result ≡ spec_of name.now }
{
    if name == "branch" {
        Some(GitSpec::Branch)
    } else if name == "tag" {
        Some(GitSpec::Tag)
    } else if name == "rev" {
        Some(GitSpec::Rev)
    } else {
        None
    }
}

// The reference of the first part of a query that is named `branch`, `tag` or `rev`.
fn find_reference(alloc: Global, query: &str) -> Result<GitReference, NoMemory>
    requires { All (λ byte. byte < 128) query.now }
    ensures { IfOk result (λ r. r ≡ reference_in (raw_pairs query.now)) }
{
    for (name, value) in raw_pairs(query.as_bytes()) {
        let name = decoded(alloc, name)?;
        if let Some(spec) = spec_in(name.as_str()) {
            let value = decoded(alloc, value)?;
            return Ok(GitReference {
                spec,
                value: Some(value),
            });
        }
    }
    Ok(GitReference {
        spec: GitSpec::Any,
        value: None,
    })
}

// The query of an address; the empty text where it has none.
fn query_of(url: &Url) -> &str
    ensures value { result.now ≡ unwrap_or url.now.query [] }
    ensures small { All (λ byte. byte < 128) result.now }
{
    match url.query() {
        Some(query) => query,
        None => "",
    }
}

// An address without its fragment.
fn without_fragment(mut url: Url) -> Result<Url, NoMemory>
    ensures { IfOk result (λ bare. bare ≡ record url { fragment = None }) }
{
    if url.fragment().is_none() {
        return Ok(url);
    }
    match url.set_fragment(None) {
        Ok(()) => Ok(url),
        Err(_) => Err(NoMemory),
    }
}

// The git source at an address.
#[tactic(auto, unfolding(crate::specs::Source::git_source))]
fn git_at(alloc: Global, url: Url) -> Result<Source, NoMemory>
    ensures { IfOk result (λ s. s ≡ git_source url) }
{
    let GitReference { spec, value } = find_reference(alloc, query_of(&url))?;
    Ok(Source::Git {
        url: without_fragment(url)?,
        spec,
        spec_value: value,
    })
}

/// Parses a text as a URL; none where it is none.
pub fn address_in(alloc: Global, text: &str) -> Result<Option<Url>, NoMemory>
    ensures { IfOk result (λ url. url ≡ result_ok (parse_url None text.now)) }
{
    match Url::parse(alloc, text) {
        Ok(url) => Ok(Some(url)),
        Err(ParseError::OutOfMemory) => Err(NoMemory),
        Err(ParseError::Overflow) => Err(NoMemory),
        Err(_) => Ok(None),
    }
}

// The source of a text with one of the three prefixes.
#[tactic(auto, unfolding(crate::specs::Source::addressed, crate::specs::Source::prefixed, crate::specs::Source::read_as))]
fn addressed_in(alloc: Global, text: &str) -> Result<Option<Source>, NoMemory>
    ensures { IfOk result (λ source. source ≡ addressed text.now) }
{
    if let Some(registry) = text_after("registry+", text) {
        return Ok(address_in(alloc, registry)?.map(Source::Registry));
    }
    if let Some(index) = text_after("sparse+", text) {
        return Ok(address_in(alloc, index)?.map(Source::Sparse));
    }
    if let Some(repository) = text_after("git+", text) {
        return match address_in(alloc, repository)? {
            Some(url) => Ok(Some(git_at(alloc, url)?)),
            None => Ok(None),
        };
    }
    Ok(None)
}

// The public registry, where the text names it.
#[tactic(auto, unfolding(crate::specs::Source::crates_io_of))]
fn crates_io_in(text: &str) -> Option<Source>
    ensures { result ≡ crates_io_of text.now }
{
    if text == "registry+https://github.com/rust-lang/crates.io-index" {
        Some(Source::CratesIo(false))
    } else if text == "sparse+https://index.crates.io/" {
        Some(Source::CratesIo(true))
    } else {
        None
    }
}

/// The source that a text names, if it names one: `registry+`, `sparse+` or `git+`, and then a URL.
#[tactic(auto, unfolding(crate::specs::Source::source_of, crate::specs::Source::known_or))]
pub fn source_in(alloc: Global, text: &str) -> Result<Option<Source>, NoMemory>
    ensures { IfOk result (λ source. source ≡ source_of text.now) }
{
    match crates_io_in(text) {
        Some(source) => Ok(Some(source)),
        None => addressed_in(alloc, text),
    }
}
