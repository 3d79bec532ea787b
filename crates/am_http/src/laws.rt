//! A law about the definitions that the contracts cite.

ghost use Rattle.std.specs.Prelude.{◌≡◌, ◌≢◌, ℕ, List};
ghost use Rattle.am_http.specs.declared.cause.Cause.{Cause};
ghost use Rattle.am_http.specs.declared.cause.Cause.TheVariants.{HeadTooLarge};
ghost use Rattle.am_http.specs.Requests.{HasFault, IsRequestIn, IsUnfinished};

/// States that bytes have at most one whole request at their front. If they have one, nothing is missing from it, and nothing is
/// at fault; the law doesn't say that the head isn't too large, since the grammar's own words leave that to the parser.
pub fn a_request_is_read_in_one_way()
    // PROMISE: A request has one reading.
    ensures one { (bytes method target body other_method other_target other_body : List ℕ)
        → IsRequestIn bytes method target body → IsRequestIn bytes other_method other_target other_body
        → (method ≡ other_method) × (target ≡ other_target) × (body ≡ other_body) }
    ensures whole { (bytes method target body : List ℕ) → IsRequestIn bytes method target body → ¬ (IsUnfinished bytes) }
    ensures sound { (bytes method target body : List ℕ) (cause : Cause) → cause ≢ HeadTooLarge
        → IsRequestIn bytes method target body → ¬ (HasFault bytes cause) }
{}
