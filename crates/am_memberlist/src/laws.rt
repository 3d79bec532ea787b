//! A law about the definitions of requests and of answers.

ghost use Rattle.std.specs.Prelude.{◌≡◌, ◌<◌, ℕ, List, Ok, length};
ghost use Rattle.am_memberlist.specs.Messages.{message_in, states};
ghost use Rattle.am_memberlist.specs.Requests.{request_encoding};

/// States that a request with states of fewer than 4,294,967,296 bytes is read as exactly these: it has the form of an answer.
pub fn requests_are_read_again()
    ensures { (bytes : List ℕ) → length bytes < 4_294_967_296 → message_in (request_encoding bytes) ≡ Ok (states bytes) }
{}
