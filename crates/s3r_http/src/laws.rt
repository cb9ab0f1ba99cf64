//! What holds of the texts of requests.
ghost use Rattle.std.specs.Prelude.{◌≡◌, ◌≢◌, ℕ, List, [], ◌++◌};
ghost use Rattle.s3r_http.specs.Request.{SpellsRequest};
ghost use Rattle.s3r_http.specs.Refusals.{IsRefusal, IsCause};
ghost use Rattle.s3r_http.specs.declared.message.HttpFault.{HttpFault};
ghost use Rattle.s3r_http.specs.declared.message.RawRequest.{RawRequest};

/// One request stands at the front of bytes, at most.
pub fn one_request()
    ensures { (raw other : RawRequest) (text text' rest rest' : List ℕ) → SpellsRequest raw text → SpellsRequest other text' → text ++ rest ≡ text' ++ rest'
        → (raw ≡ other) × (text ≡ text') }
{}

/// The text of a request has bytes.
pub fn some_text()
    ensures { (raw : RawRequest) (text : List ℕ) → SpellsRequest raw text → text ≢ [] }
{}

/// Bytes give one cause of a refusal, at most.
pub fn one_cause()
    ensures { (fault other : HttpFault) (stream : List ℕ) → IsRefusal fault → IsRefusal other → IsCause fault stream → IsCause other stream → fault ≡ other }
{}
