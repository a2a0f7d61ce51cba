//! The arguments of the command line.
ghost use Rattle.std.specs.Prelude.{◌≡◌, ◌↔◌, ℕ, [], ◌∷◌, IfOk, IfErr, IfSome, IfNone, IsTrue, codes, map, string_bytes};
ghost use Rattle.lcm_program.specs.Words.{IsAgent, IsCount, IsForm, IsName, IsStage, IsUsage};

use dsc_document::MAX_RESOURCES;
use mof_values::MAX_NAME_BYTES;
use node_state::Stage;
use uuid::Uuid;

/// What the program is asked to do.
#[derive(Clone, Copy, Debug, PartialEq, Eq)]
pub enum Command<'a> {
    /// Tests the machine by the document in the input.
    Test,

    /// Prints how many resources the document of the input has.
    Check,

    /// Prints the ids of the resources in the order of their dependencies.
    Order,

    /// Prints the canonical text of the instances that the input spells.
    Canon,

    /// Prints the checksum of the input.
    Checksum,

    /// Prints the document that the script in the input gives the node of this name, 1 to 255 bytes.
    Compile { node: &'a str },

    /// Repairs an empty machine in memory by a document of this number of resources, 1 to 4,096, and prints the result.
    Generate { count: u32 },

    /// Gives the node its agent id, a UUID.
    Init { agent: u128 },

    /// Applies the meta-configuration in the input.
    Meta,

    /// Registers the agent at the pull server, under this name of its node, 1 to 255 bytes.
    Register { name: &'a str },

    /// Fetches what the pull server has for the node, and brings the machine to it.
    Pull,

    /// Stores the document in the input, and brings the machine to it; under a name, 1 to 255 bytes, as the part of the partial
    /// configuration that has the name.
    Push { name: Option<&'a str> },

    /// Goes on with the pending document; without one, monitors or repairs by the current one, as the meta-configuration says.
    Consistency,

    /// Does the same, also where a reboot was asked for: the machine booted.
    Boot,

    /// Prints what the node is and holds.
    Get,

    /// Goes back to the previous document, and brings the machine to it.
    Restore,

    /// Drops a document.
    Remove { stage: Stage },

    /// Prints the reports that the node keeps.
    Reports,
}

/// The arguments fit no command; `word` is the place of the first argument that no command goes on with, or their count.
#[derive(Clone, Copy, Debug, PartialEq, Eq)]
pub struct UsageError {
    pub word: u32,
}

/// The command that the arguments ask for.
pub fn read_words<'a>(arguments: &'a [String]) -> Result<Command<'a>, UsageError>
    ensures ok { IfOk result (λ command. IsForm command (map string_bytes arguments.now)) }
    ensures usage { IfErr result (λ error. IsUsage (map string_bytes arguments.now) error.word) }
{
    let [first, rest @ ..] = arguments else {
        return Err(UsageError { word: 0 });
    };
    if first.as_str() == "generate" {
        return read_generate(rest);
    }
    if first.as_str() == "init" {
        return read_init(rest);
    }
    if first.as_str() == "register" {
        return read_register(rest);
    }
    if first.as_str() == "remove" {
        return read_remove(rest);
    }
    if first.as_str() == "push" {
        return read_push(rest);
    }
    if first.as_str() == "compile" {
        return read_compile(rest);
    }
    let Some(command) = command_of(first) else {
        return Err(UsageError { word: 0 });
    };
    match rest {
        [] => Ok(command),
        _ => Err(UsageError { word: 1 }),
    }
}

// The command that the argument asks for alone, where no other may follow it: any but `push`.
fn command_of(word: &str) -> Option<Command<'static>>
    ensures some { IfSome result (λ command. IsForm command (word.now ∷ [])) }
    ensures none { IfNone result ((command : Command) → IsForm command (word.now ∷ [])
        → word.now ≡ codes "push") }
{
    match word {
        "test" => Some(Command::Test),
        "check" => Some(Command::Check),
        "order" => Some(Command::Order),
        "canon" => Some(Command::Canon),
        "checksum" => Some(Command::Checksum),
        "meta" => Some(Command::Meta),
        "pull" => Some(Command::Pull),
        "consistency" => Some(Command::Consistency),
        "boot" => Some(Command::Boot),
        "get" => Some(Command::Get),
        "restore" => Some(Command::Restore),
        "reports" => Some(Command::Reports),
        _ => None,
    }
}

// What the arguments after `generate` ask for.
fn read_generate(rest: &[String]) -> Result<Command<'static>, UsageError>
    ensures ok { IfOk result (λ command. IsForm command
        (codes "generate" ∷ map string_bytes rest.now)) }
    ensures usage { IfErr result (λ error. IsUsage (codes "generate" ∷ map string_bytes rest.now)
        error.word) }
{
    let [word, more @ ..] = rest else {
        return Err(UsageError { word: 1 });
    };
    let Some(count) = parsed_count(word) else {
        return Err(UsageError { word: 1 });
    };
    match more {
        [] => Ok(Command::Generate { count }),
        _ => Err(UsageError { word: 2 }),
    }
}

// What the arguments after `init` ask for.
fn read_init(rest: &[String]) -> Result<Command<'static>, UsageError>
    ensures ok { IfOk result (λ command. IsForm command
        (codes "init" ∷ map string_bytes rest.now)) }
    ensures usage { IfErr result (λ error. IsUsage (codes "init" ∷ map string_bytes rest.now)
        error.word) }
{
    let [word, more @ ..] = rest else {
        return Err(UsageError { word: 1 });
    };
    let Some(agent) = read_agent(word) else {
        return Err(UsageError { word: 1 });
    };
    match more {
        [] => Ok(Command::Init { agent }),
        _ => Err(UsageError { word: 2 }),
    }
}

// What the arguments after `register` ask for.
fn read_register<'a>(rest: &'a [String]) -> Result<Command<'a>, UsageError>
    ensures ok { IfOk result (λ command. IsForm command
        (codes "register" ∷ map string_bytes rest.now)) }
    ensures usage { IfErr result (λ error. IsUsage (codes "register" ∷ map string_bytes rest.now)
        error.word) }
{
    let [word, more @ ..] = rest else {
        return Err(UsageError { word: 1 });
    };
    let name = word.as_str();
    if !is_name(name) {
        return Err(UsageError { word: 1 });
    }
    match more {
        [] => Ok(Command::Register { name }),
        _ => Err(UsageError { word: 2 }),
    }
}

// What the arguments after `push` ask for.
fn read_push<'a>(rest: &'a [String]) -> Result<Command<'a>, UsageError>
    ensures ok { IfOk result (λ command. IsForm command
        (codes "push" ∷ map string_bytes rest.now)) }
    ensures usage { IfErr result (λ error. IsUsage (codes "push" ∷ map string_bytes rest.now)
        error.word) }
{
    let [word, more @ ..] = rest else {
        return Ok(Command::Push { name: None });
    };
    let name = word.as_str();
    if !is_name(name) {
        return Err(UsageError { word: 1 });
    }
    match more {
        [] => Ok(Command::Push { name: Some(name) }),
        _ => Err(UsageError { word: 2 }),
    }
}

// What the arguments after `compile` ask for.
fn read_compile<'a>(rest: &'a [String]) -> Result<Command<'a>, UsageError>
    ensures ok { IfOk result (λ command. IsForm command
        (codes "compile" ∷ map string_bytes rest.now)) }
    ensures usage { IfErr result (λ error. IsUsage (codes "compile" ∷ map string_bytes rest.now)
        error.word) }
{
    let [word, more @ ..] = rest else {
        return Err(UsageError { word: 1 });
    };
    let node = word.as_str();
    if !is_name(node) {
        return Err(UsageError { word: 1 });
    }
    match more {
        [] => Ok(Command::Compile { node }),
        _ => Err(UsageError { word: 2 }),
    }
}

// What the arguments after `remove` ask for.
fn read_remove(rest: &[String]) -> Result<Command<'static>, UsageError>
    ensures ok { IfOk result (λ command. IsForm command
        (codes "remove" ∷ map string_bytes rest.now)) }
    ensures usage { IfErr result (λ error. IsUsage (codes "remove" ∷ map string_bytes rest.now)
        error.word) }
{
    let [word, more @ ..] = rest else {
        return Err(UsageError { word: 1 });
    };
    let Some(stage) = read_stage(word) else {
        return Err(UsageError { word: 1 });
    };
    match more {
        [] => Ok(Command::Remove { stage }),
        _ => Err(UsageError { word: 2 }),
    }
}

// Returns whether the argument can name a node, or a partial configuration.
fn is_name(word: &str) -> bool
    ensures { IsTrue result ↔ IsName word.now }
{
    !word.is_empty() && word.len() <= MAX_NAME_BYTES
}

// The stage that the argument names.
fn read_stage(word: &str) -> Option<Stage>
    ensures some { IfSome result (IsStage word.now) }
    ensures none { IfNone result ((stage : Stage) → IsStage word.now stage → ⊥) }
{
    match word {
        "pending" => Some(Stage::Pending),
        "current" => Some(Stage::Current),
        "previous" => Some(Stage::Previous),
        _ => None,
    }
}

// The number of resources that the argument is: in decimal, without a sign or a zero in front.
fn parsed_count(word: &str) -> Option<u32>
    ensures some { IfSome result (IsCount word.now) }
    ensures none { IfNone result ((count : ℕ) → IsCount word.now count → ⊥) }
{
    match word.as_bytes() {
        [b'1'..=b'9', ..] => {}
        _ => return None,
    }
    match word.parse::<u32>() {
        Ok(count) if count as usize <= MAX_RESOURCES => Some(count),
        _ => None,
    }
}

// The agent that the argument is the identifier of, in any form that `uuid` reads.
fn read_agent(word: &str) -> Option<u128>
    ensures some { IfSome result (IsAgent word.now) }
    ensures none { IfNone result ((agent : ℕ) → IsAgent word.now agent → ⊥) }
{
    match Uuid::parse_str(word) {
        Ok(id) => Some(id.as_u128()),
        Err(_) => None,
    }
}
