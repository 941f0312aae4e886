//! Laws about the definitions of this crate. Each is the contract of a function that does nothing.

ghost use Rattle.paseto_calls.specs.ErrorText.{SayTheErrors};

/// The text of the status for an error of the core is the error's own text.
pub fn statuses_say_the_errors()
    ensures { SayTheErrors }
{}
