//! The calls of the functions on URLs, escapes and Base64; each takes one argument.
ghost use Rattle.std.specs.Prelude.{◌≡◌, length};

use std::alloc::Global;
use wf_fn_uri::{
    f_base64, f_base64_to_string, f_data_uri, f_data_uri_to_string, f_decode_base64,
    f_decode_uri_component, f_encode_uri_component, f_uri_component, f_uri_component_to_string,
    f_uri_host, f_uri_path, f_uri_path_and_query, f_uri_port, f_uri_query, f_uri_scheme,
};
use wf_val::{EvalFault, Fun, Val, Vals};

// What a function of these gives, where it takes so many arguments.
pub(crate) fn given(alloc: Global, function: Fun, args: &Vals) -> Option<Result<Val, EvalFault>> {
    if args.len() != 1 {
        return None;
    }
    of_url(alloc, function, args)
}

fn of_url(alloc: Global, function: Fun, args: &Vals) -> Option<Result<Val, EvalFault>>
    requires { length args.now ≡ 1 }
{
    match function {
        Fun::UriScheme => Some(f_uri_scheme(alloc, args)),
        Fun::UriHost => Some(f_uri_host(alloc, args)),
        Fun::UriPath => Some(f_uri_path(alloc, args)),
        Fun::UriQuery => Some(f_uri_query(alloc, args)),
        Fun::UriPathAndQuery => Some(f_uri_path_and_query(alloc, args)),
        Fun::UriPort => Some(f_uri_port(alloc, args)),
        _ => of_escapes(alloc, function, args),
    }
}

fn of_escapes(alloc: Global, function: Fun, args: &Vals) -> Option<Result<Val, EvalFault>>
    requires { length args.now ≡ 1 }
{
    match function {
        Fun::UriComponent => Some(f_uri_component(alloc, args)),
        Fun::EncodeUriComponent => Some(f_encode_uri_component(alloc, args)),
        Fun::UriComponentToString => Some(f_uri_component_to_string(alloc, args)),
        Fun::DecodeUriComponent => Some(f_decode_uri_component(alloc, args)),
        _ => of_encodings(alloc, function, args),
    }
}

fn of_encodings(alloc: Global, function: Fun, args: &Vals) -> Option<Result<Val, EvalFault>>
    requires { length args.now ≡ 1 }
{
    match function {
        Fun::Base64 => Some(f_base64(alloc, args)),
        Fun::Base64ToString => Some(f_base64_to_string(alloc, args)),
        Fun::DecodeBase64 => Some(f_decode_base64(alloc, args)),
        Fun::DataUri => Some(f_data_uri(alloc, args)),
        Fun::DataUriToString => Some(f_data_uri_to_string(alloc, args)),
        _ => None,
    }
}
