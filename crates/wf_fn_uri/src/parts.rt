//! Parts of a URL.
ghost use Rattle.std.specs.Prelude.{◌≡◌, ◌≢◌, ◌++◌, Some, None, IfOk, IfErr, length, option_copied};
ghost use Rattle.wf_val.specs.Arguments.{seen, Gives, bounded};
ghost use Rattle.wf_val.specs.ValueTree.{text};
ghost use Rattle.wf_fn_uri.specs.Parts.{of_url, url_of, scheme_of, host_of, path_of, query_of, path_and_query_of, port_of, marked};

use std::alloc::Global;
use url::{ParseError, Url};
use wf_val::{EvalFault, Fun, Text, Val, Vals, bounded, bounded_text, text_at};

/// `uriScheme`: the scheme, in lower case and without its colon.
pub fn f_uri_scheme(alloc: Global, args: &Vals) -> Result<Val, EvalFault>
    requires { length args.now ≡ 1 }
    ensures { Gives (seen result) (of_url Fun.UriScheme scheme_of args.now) }
{
    let text = text_at(Fun::UriScheme, args, 0)?;
    let url = read_url(alloc, Fun::UriScheme, text.as_str())?;
    bounded_text(alloc, url.scheme())
}

/// `uriHost`: the host as the URL writes it, empty where there is none.
pub fn f_uri_host(alloc: Global, args: &Vals) -> Result<Val, EvalFault>
    requires { length args.now ≡ 1 }
    ensures { Gives (seen result) (of_url Fun.UriHost host_of args.now) }
{
    let text = text_at(Fun::UriHost, args, 0)?;
    let url = read_url(alloc, Fun::UriHost, text.as_str())?;
    bounded_text(alloc, url.host_str().unwrap_or(""))
}

/// `uriPath`: the path.
pub fn f_uri_path(alloc: Global, args: &Vals) -> Result<Val, EvalFault>
    requires { length args.now ≡ 1 }
    ensures { Gives (seen result) (of_url Fun.UriPath path_of args.now) }
{
    let text = text_at(Fun::UriPath, args, 0)?;
    let url = read_url(alloc, Fun::UriPath, text.as_str())?;
    bounded_text(alloc, url.path())
}

/// `uriQuery`: the query with its `?`, empty where there is none.
pub fn f_uri_query(alloc: Global, args: &Vals) -> Result<Val, EvalFault>
    requires { length args.now ≡ 1 }
    ensures { Gives (seen result) (of_url Fun.UriQuery query_of args.now) }
{
    let text = text_at(Fun::UriQuery, args, 0)?;
    let url = read_url(alloc, Fun::UriQuery, text.as_str())?;
    with_query(alloc, "", url.query())
}

/// `uriPathAndQuery`: the path, and the query with its `?` where there is one.
pub fn f_uri_path_and_query(alloc: Global, args: &Vals) -> Result<Val, EvalFault>
    requires { length args.now ≡ 1 }
    ensures { Gives (seen result) (of_url Fun.UriPathAndQuery path_and_query_of args.now) }
{
    let text = text_at(Fun::UriPathAndQuery, args, 0)?;
    let url = read_url(alloc, Fun::UriPathAndQuery, text.as_str())?;
    with_query(alloc, url.path(), url.query())
}

/// `uriPort`: the port, by default that of the scheme, else -1.
pub fn f_uri_port(alloc: Global, args: &Vals) -> Result<Val, EvalFault>
    requires { length args.now ≡ 1 }
    ensures { Gives (seen result) (of_url Fun.UriPort port_of args.now) }
{
    let text = text_at(Fun::UriPort, args, 0)?;
    let url = read_url(alloc, Fun::UriPort, text.as_str())?;
    match url.port_or_known_default() {
        Some(port) => Ok(Val::Int(port as i64)),
        None => Ok(Val::Int(-1)),
    }
}

// A path, and a query with its `?` where there is one.
fn with_query(alloc: Global, path: &str, query: Option<&str>) -> Result<Val, EvalFault>
    ensures { Gives (seen result) (bounded (text (path.now ++ marked (option_copied query.entry)))) }
{
    let mut written = String::from_str(alloc, path)?;
    if let Some(query) = query {
        written.push_str("?")?;
        written.push_str(query)?;
    }
    bounded(Val::Text(Text::from_string(written)))
}

// The URL that a text is; `BadText` where it is none.
fn read_url(alloc: Global, function: Fun, text: &str) -> Result<Url, EvalFault>
    ensures ok { IfOk result (λ u. url_of text.now ≡ Some u) }
    ensures err { IfErr result (λ f. f ≢ EvalFault.Memory → (f ≡ EvalFault.BadText function) × (url_of text.now ≡ None)) }
{
    match Url::parse(alloc, text) {
        Ok(url) => Ok(url),
        Err(ParseError::OutOfMemory) => Err(EvalFault::Memory),
        Err(ParseError::Overflow) => Err(EvalFault::Memory),
        Err(_) => Err(EvalFault::BadText { function }),
    }
}
