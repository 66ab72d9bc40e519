//! What is encoded is decoded again, and what an escaped text is made of. Each call tells a caller so, and does nothing.
ghost use Rattle.std.specs.Prelude.{◌≡◌, ◌<◌, ℕ, List, Ok, Some, ◌↔◌, ◌++◌, codes};
ghost use Rattle.std.specs.List.{All};
ghost use Rattle.base64.specs.Engines.{standard};
ghost use Rattle.base64.specs.GeneralPurpose.{encode_of, decode_of, IsBytes};
ghost use Rattle.percent_encoding.specs.Percent.{percent_decode};
ghost use Rattle.wf_fn_uri.specs.Encodings.{behind_scheme, encoded_part};
ghost use Rattle.wf_fn_uri.specs.Escapes.{escaped};
ghost use Rattle.wf_fn_uri.specs.Laws.{IsEscaped};

/// `uriComponentToString` of what `uriComponent` gives is the text, and that has only unreserved characters and escapes.
pub fn escapes_are_undone()
    ensures back { (s : List ℕ) → All (λ b. b < 256) s → percent_decode (escaped s) ≡ s }
    ensures made { (s : List ℕ) → IsEscaped (escaped s) }
{}

/// `base64ToString` of what `base64` gives is the text, and no other text decodes to it.
pub fn base64_is_undone()
    ensures { (s b : List ℕ) → IsBytes s → IsBytes b → (decode_of standard s ≡ Ok b) ↔ (s ≡ encode_of standard b) }
{}

/// What `dataUri` gives carries just that encoding.
pub fn data_urls_carry_their_encoding()
    ensures { (e : List ℕ) → encoded_part (behind_scheme (codes "data:text/plain;charset=utf-8;base64," ++ e)) ≡ Some e }
{}
