//! The options and arguments of each command.

ghost use Rattle.std.specs.Prelude.{◌≡◌, IfOk, codes, false, map};
ghost use Rattle.clap.specs.Words.{App, kind_of, new_app, rule_of};
ghost use Rattle.paseto_words.specs.App.{IsFor, app_for, key_apps, paseto_app, rule_for, top_app, with_rules, with_subcommands};

use clap::error::ErrorKind;
use clap::{Arg, ArgAction, Command, Error};
use std::alloc::{AllocError, Global};

/// How arguments give a parameter, and what the help calls its value.
#[derive(Clone, Copy)]
enum Form {
    /// An option with a value.
    Option(&'static str),
    /// An option with a value that may be given many times.
    Many(&'static str),
    /// An option without a value.
    Flag,
    /// An argument that is not an option.
    Place(&'static str),
}

/// An option or an argument of a command.
#[derive(Clone, Copy)]
struct Parameter {
    id: &'static str,
    form: Form,
    help: &'static str,
    is_required: bool,
}

/// A command of the program.
#[derive(Clone, Copy)]
struct Subcommand {
    name: &'static str,
    about: &'static str,
    example: &'static str,
    /// The usage, if it is not the one that clap writes.
    usage: Option<&'static str>,
    parameters: &'static [Parameter],
}

const KEY: Parameter = Parameter {
    id: "key",
    form: Form::Option("FILE"),
    help: "The key file (PASERK or PEM), or - for standard input; without it, PASETO_KEY holds the key",
    is_required: false,
};

const PASSWORD: Parameter = Parameter {
    id: "password-file",
    form: Form::Option("FILE"),
    help: "The file of the password (all of it but one final newline), or - for standard input; without it, PASETO_PASSWORD holds it",
    is_required: false,
};

const OPENER: Parameter = Parameter {
    id: "unlock-key",
    form: Form::Option("FILE"),
    help: "The key that unlocks a wrapped or sealed key: the wrapping key or the private key",
    is_required: false,
};

/// The password of a key that is written.
const NEW_PASSWORD: Parameter = Parameter {
    id: "password-file",
    form: Form::Option("FILE"),
    help: "The file of the password for the key (all of it but one final newline), or - for standard input",
    is_required: false,
};

const FORMAT: Parameter = Parameter {
    id: "format",
    form: Form::Option("FORMAT"),
    help: "The format of the key: paserk, or pem for key pairs of version 3 or 4",
    is_required: false,
};

const CLAIM: Parameter = Parameter {
    id: "claim",
    form: Form::Many("CLAIM"),
    help: "A claim, NAME=TEXT or NAME:=JSON; may be repeated",
    is_required: false,
};

const FOOTER: Parameter = Parameter {
    id: "footer",
    form: Form::Option("TEXT"),
    help: "The footer of the token",
    is_required: false,
};

const KID: Parameter = Parameter {
    id: "footer-kid",
    form: Form::Option("ID"),
    help: "The id of a key, which goes into the footer so that a ring finds the key",
    is_required: false,
};

const ASSERTION: Parameter = Parameter {
    id: "assertion",
    form: Form::Option("TEXT"),
    help: "The implicit assertion of the token (version 3 or 4)",
    is_required: false,
};

const OUT: Parameter = Parameter {
    id: "out",
    form: Form::Option("FILE"),
    help: "A new file to write to, instead of standard output",
    is_required: false,
};

const INPUT: Parameter = Parameter {
    id: "input",
    form: Form::Place("INPUT"),
    help: "A file, or - for standard input, which is the default",
    is_required: false,
};

const ISSUED: Parameter = Parameter {
    id: "issued",
    form: Form::Option("FILE"),
    help: "A file of the tokens that were issued, one on each line",
    is_required: true,
};

const KIND: Parameter = Parameter {
    id: "kind",
    form: Form::Place("KIND"),
    help: "v1.local, v2.local, v2.public, v3.local, v3.public, v4.local or v4.public",
    is_required: true,
};

const KEY_OUT: Parameter = Parameter {
    id: "out",
    form: Form::Option("FILE"),
    help: "A new file for the key, readable only by its owner",
    is_required: false,
};

const PUBLIC_OUT: Parameter = Parameter {
    id: "public",
    form: Form::Option("FILE"),
    help: "A new file for the public key",
    is_required: false,
};

const QUIET: Parameter = Parameter {
    id: "quiet",
    form: Form::Flag,
    help: "Does not report what was written",
    is_required: false,
};

const WRAPPING_KEY: Parameter = Parameter {
    id: "wrapping-key",
    form: Form::Option("FILE"),
    help: "The key file of the wrapping key, a local key of the same version",
    is_required: false,
};

const RECIPIENT: Parameter = Parameter {
    id: "to",
    form: Form::Option("FILE"),
    help: "The key file of the recipient's public key",
    is_required: true,
};

const EXPIRES: Parameter = Parameter {
    id: "expires",
    form: Form::Option("TIME"),
    help: "When it expires: in 90s, 30m, 12h or 7d, or at 2026-11-22T10:00:00Z",
    is_required: false,
};

const NOT_BEFORE: Parameter = Parameter {
    id: "not-before",
    form: Form::Option("TIME"),
    help: "When it becomes valid, written like --expires",
    is_required: false,
};

const RING: Parameter = Parameter {
    id: "ring",
    form: Form::Option("FOLDER"),
    help: "A folder of key files; the token's footer names one by its id",
    is_required: false,
};

/// The folder of the keys that sign.
const SIGNING_RING: Parameter = Parameter {
    id: "ring",
    form: Form::Option("FOLDER"),
    help: "A folder of key files; the last private one by name signs, and the footer names it",
    is_required: false,
};

const LONGEST: Parameter = Parameter {
    id: "longest",
    form: Form::Option("BYTES"),
    help: "The most bytes that the input may have, instead of 64000000",
    is_required: false,
};

const EACH: Parameter = Parameter {
    id: "each",
    form: Form::Flag,
    help: "Checks the token on each line, of --longest bytes at most, and prints a JSON line for each: {\"claims\":..} or {\"error\":..}",
    is_required: false,
};

const REQUIRE: Parameter = Parameter {
    id: "require",
    form: Form::Many("NAME"),
    help: "A claim that must be present and not null; may be repeated",
    is_required: false,
};

const AT: Parameter = Parameter {
    id: "at",
    form: Form::Option("TIME"),
    help: "The time to check at, instead of now",
    is_required: false,
};

const LEEWAY: Parameter = Parameter {
    id: "leeway",
    form: Form::Option("LENGTH"),
    help: "How far the issuer's and the reader's clocks may differ: 5s, 1m",
    is_required: false,
};

const KEYGEN: Subcommand = Subcommand {
    name: "keygen",
    about: "Generates a key: local kinds encrypt, public kinds sign",
    example: "Example: paseto keygen v4.public --out signing.key --public verifying.key",
    usage: None,
    parameters: &[KIND, NEW_PASSWORD, FORMAT, KEY_OUT, PUBLIC_OUT, QUIET],
};

const PUBLIC: Subcommand = Subcommand {
    name: "public",
    about: "Prints the public key of a private key",
    example: "Example: paseto public --key signing.key --out verifying.key",
    usage: None,
    parameters: &[KEY, PASSWORD, OPENER, FORMAT, OUT],
};

const ID: Subcommand = Subcommand {
    name: "id",
    about: "Prints the PASERK id of a key, which identifies it without revealing it",
    example: "Example: paseto id --key office.key",
    usage: None,
    parameters: &[KEY, PASSWORD, OPENER],
};

const WRAP: Subcommand = Subcommand {
    name: "wrap",
    about: "Encrypts a key under a password or a wrapping key",
    example: "Example: paseto wrap --key office.key --password-file password --out locked.key",
    usage: None,
    parameters: &[KEY, WRAPPING_KEY, NEW_PASSWORD, OUT],
};

const UNWRAP: Subcommand = Subcommand {
    name: "unwrap",
    about: "Prints the key of a key file that is under a password, wrapped or sealed",
    example: "Example: paseto unwrap --key locked.key --password-file password --out office.key",
    usage: None,
    parameters: &[KEY, PASSWORD, OPENER, FORMAT, OUT],
};

const SEAL: Subcommand = Subcommand {
    name: "seal",
    about: "Encrypts a local key to a public key",
    example: "Example: paseto seal --key office.key --to branch.public --out sealed.key",
    usage: None,
    parameters: &[KEY, PASSWORD, OPENER, RECIPIENT, OUT],
};

const UNSEAL: Subcommand = Subcommand {
    name: "unseal",
    about: "Decrypts a sealed key with the private key",
    example: "Example: paseto unseal --key sealed.key --unlock-key branch.secret --out office.key",
    usage: None,
    parameters: &[KEY, PASSWORD, OPENER, FORMAT, OUT],
};

const ISSUE: Subcommand = Subcommand {
    name: "issue",
    about: "Issues a token of claims, which expires in an hour unless --expires says otherwise",
    example: "Example: paseto issue --key office.key --claim seats:=4 --claim aud=customers --expires 1h",
    usage: None,
    parameters: &[
        KEY,
        PASSWORD,
        OPENER,
        SIGNING_RING,
        CLAIM,
        EXPIRES,
        NOT_BEFORE,
        FOOTER,
        KID,
        ASSERTION,
        OUT,
    ],
};

const CHECK: Subcommand = Subcommand {
    name: "check",
    about: "Prints the claims of a valid token as JSON, or says why it is rejected",
    example: "Example: paseto check --key office.key --claim aud=customers token",
    usage: Some("paseto check [--key <FILE> | --ring <FOLDER>] [OPTIONS] [INPUT]"),
    parameters: &[
        KEY, PASSWORD, OPENER, RING, CLAIM, REQUIRE, AT, LEEWAY, FOOTER, KID, ASSERTION, EACH,
        LONGEST, INPUT,
    ],
};

const ENCRYPT: Subcommand = Subcommand {
    name: "encrypt",
    about: "Encrypts a text and prints the token",
    example: "Example: echo hello | paseto encrypt --key office.key",
    usage: None,
    parameters: &[
        KEY, PASSWORD, OPENER, FOOTER, ASSERTION, LONGEST, INPUT, OUT,
    ],
};

const DECRYPT: Subcommand = Subcommand {
    name: "decrypt",
    about: "Decrypts a token and prints its text, without a check of its times",
    example: "Example: paseto decrypt --key office.key token",
    usage: None,
    parameters: &[
        KEY, PASSWORD, OPENER, RING, FOOTER, ASSERTION, LONGEST, INPUT,
    ],
};

const SIGN: Subcommand = Subcommand {
    name: "sign",
    about: "Signs a text and prints the token, which everyone can read",
    example: "Example: echo hello | paseto sign --key signing.key",
    usage: None,
    parameters: &[
        KEY, PASSWORD, OPENER, FOOTER, ASSERTION, LONGEST, INPUT, OUT,
    ],
};

const VERIFY: Subcommand = Subcommand {
    name: "verify",
    about: "Verifies a signed token and prints its text, without a check of its times",
    example: "Example: paseto verify --key verifying.key token",
    usage: None,
    parameters: &[
        KEY, PASSWORD, OPENER, RING, FOOTER, ASSERTION, LONGEST, INPUT,
    ],
};

const EXPLAIN: Subcommand = Subcommand {
    name: "explain",
    about: "Says which issued token a token is (status 0), or that it is a forgery (status 1)",
    example: "Example: paseto explain --key office.key --issued tokens.log token",
    usage: None,
    parameters: &[
        KEY, PASSWORD, OPENER, ISSUED, FOOTER, ASSERTION, LONGEST, INPUT,
    ],
};

const INSPECT: Subcommand = Subcommand {
    name: "inspect",
    about: "Shows what a token contains, without verifying it, or which key a text is",
    example: "Example: paseto inspect token",
    usage: None,
    parameters: &[LONGEST, INPUT],
};

/// The commands for keys.
const KEY_COMMANDS: &[Subcommand] = &[KEYGEN, PUBLIC, ID, WRAP, UNWRAP, SEAL, UNSEAL];

/// The commands for tokens.
const TOKEN_COMMANDS: &[Subcommand] = &[
    ISSUE, CHECK, ENCRYPT, DECRYPT, SIGN, VERIFY, EXPLAIN, INSPECT,
];

/// A parameter, for clap.
fn arg_of<'a>(alloc: Global, parameter: &Parameter) -> Arg<'a>
    ensures rule { rule_of result ≡ rule_for parameter.now }
    ensures local { result.global ≡ false }
{
    let arg = Arg::new(alloc, parameter.id)
        .help(parameter.help)
        .required(parameter.is_required);
    match parameter.form {
        Form::Option(value) => arg.long(parameter.id).value_name(value),
        Form::Many(value) => arg
            .long(parameter.id)
            .value_name(value)
            .action(ArgAction::Append),
        Form::Flag => arg.long(parameter.id).action(ArgAction::SetTrue),
        Form::Place(value) => arg.value_name(value),
    }
}

/// A command with further parameters.
fn with_parameters<'a>(
    command: Command<'a>,
    alloc: Global,
    parameters: &[Parameter],
) -> Result<Command<'a>, AllocError>
    ensures { (a : App) → IsFor a command.entry
        → IfOk result (IsFor (with_rules a (map rule_for parameters.now))) }
{
    let mut command = command;
    for parameter in parameters {
        command = command.arg(arg_of(alloc, parameter))?;
    }
    Ok(command)
}

/// A command with this usage, or with the one that clap writes.
fn with_usage<'a>(command: Command<'a>, usage: Option<&'a str>) -> Command<'a>
    ensures { (a : App) → IsFor a command.entry → IsFor a result }
{
    let Some(usage) = usage else {
        return command;
    };
    command.override_usage(usage)
}

/// A command of the program, for clap.
fn command_of<'a>(alloc: Global, subcommand: &Subcommand) -> Result<Command<'a>, AllocError>
    ensures { IfOk result (IsFor (app_for subcommand.now)) }
{
    let command = Command::new(alloc, subcommand.name)
        .about(subcommand.about)
        .after_help(subcommand.example);
    with_parameters(
        with_usage(command, subcommand.usage),
        alloc,
        subcommand.parameters,
    )
}

/// A command with further subcommands.
fn with_subcommands<'a>(
    command: Command<'a>,
    alloc: Global,
    subcommands: &[Subcommand],
) -> Result<Command<'a>, AllocError>
    ensures { (a : App) → IsFor a command.entry
        → IfOk result (IsFor (with_subcommands a (map app_for subcommands.now))) }
{
    let mut command = command;
    for subcommand in subcommands {
        command = command.subcommand(command_of(alloc, subcommand)?)?;
    }
    Ok(command)
}

fn named<'a>(alloc: Global) -> Command<'a>
    ensures { IsFor (new_app (codes "paseto")) result }
{
    Command::new(alloc, "paseto").about("Generates keys, and issues and checks PASETO tokens")
}

/// The program, without its commands.
fn top<'a>(alloc: Global) -> Command<'a>
    ensures { IsFor top_app result }
{
    named(alloc)
        .version("1.0.0")
        .subcommand_required(true)
        .arg_required_else_help(true)
}

/// The program, with its commands for keys. Each table is read in a function of its own, since the prover computes what a
/// function reads of a constant.
fn with_key_commands<'a>(alloc: Global) -> Result<Command<'a>, AllocError>
    ensures { IfOk result (IsFor (with_subcommands top_app key_apps)) }
{
    with_subcommands(top(alloc), alloc, KEY_COMMANDS)
}

/// The commands of the program, for clap. It shows the help if there are no arguments after the
/// program's name.
///
/// The only error is a failed allocation.
pub fn paseto<'a>(alloc: Global) -> Result<Command<'a>, AllocError>
    ensures { IfOk result (IsFor paseto_app) }
{
    with_subcommands(with_key_commands(alloc)?, alloc, TOKEN_COMMANDS)?.bin_name("paseto")
}

/// Two options of a command that exclude each other, which clap does not know.
#[derive(Clone, Copy)]
pub struct Conflict {
    subcommand: &'static Subcommand,
    full_name: &'static str,
    text: &'static str,
}

const KEY_AND_RING: &str = "the argument '--key <FILE>' cannot be used with '--ring <FOLDER>'";

/// `--key` and `--ring` of `check`.
pub const TWO_KEYS: Conflict = Conflict {
    subcommand: &CHECK,
    full_name: "paseto check",
    text: KEY_AND_RING,
};

/// `--key` and `--ring` of `issue`.
pub const TWO_KEYS_TO_ISSUE: Conflict = Conflict {
    subcommand: &ISSUE,
    full_name: "paseto issue",
    text: KEY_AND_RING,
};

/// `--key` and `--ring` of `decrypt`.
pub const TWO_KEYS_TO_DECRYPT: Conflict = Conflict {
    subcommand: &DECRYPT,
    full_name: "paseto decrypt",
    text: KEY_AND_RING,
};

/// `--key` and `--ring` of `verify`.
pub const TWO_KEYS_TO_VERIFY: Conflict = Conflict {
    subcommand: &VERIFY,
    full_name: "paseto verify",
    text: KEY_AND_RING,
};

/// `--footer` and `--footer-kid` of `check`.
pub const TWO_FOOTERS_TO_CHECK: Conflict = Conflict {
    subcommand: &CHECK,
    full_name: "paseto check",
    text: "the argument '--footer <TEXT>' cannot be used with '--footer-kid <ID>'",
};

/// `--footer` and `--footer-kid` of `issue`.
pub const TWO_FOOTERS_TO_ISSUE: Conflict = Conflict {
    subcommand: &ISSUE,
    full_name: "paseto issue",
    text: "the argument '--footer <TEXT>' cannot be used with '--footer-kid <ID>'",
};

/// `--wrapping-key` and `--password-file` of `wrap`.
pub const TWO_LOCKS: Conflict = Conflict {
    subcommand: &WRAP,
    full_name: "paseto wrap",
    text: "the argument '--wrapping-key <FILE>' cannot be used with '--password-file <FILE>'",
};

impl Conflict {
    /// The error, with the usage of the command.
    pub fn error(&self, alloc: Global) -> Result<Error, AllocError>
        ensures { IfOk result (λ error. kind_of error ≡ ErrorKind.ArgumentConflict) }
    {
        let mut command = command_of(alloc, self.subcommand)?.bin_name(self.full_name)?;
        command.error(ErrorKind::ArgumentConflict, self.text)
    }
}
