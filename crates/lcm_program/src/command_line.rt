//! The command line of the program: whether programs are run, the store, the host's folder, and the arguments of the command.
ghost use Rattle.std.specs.Prelude.{◌≡◌, map, string_bytes};
ghost use Rattle.lcm_program.specs.CommandLine.{IsCommandLine, IsSplit, programs_on, words_after};

/// What `node` is called with.
#[derive(Debug, Drop)]
pub struct CommandLine<'a> {
    /// Whether commands are run.
    pub programs: bool,

    /// The file that keeps the node's state.
    pub store: &'a str,

    /// The folder that stands for the machine.
    pub host: &'a str,

    pub words: &'a [String],
}

impl<'a> CommandLine<'a> {
    /// Reads the command line: the program's name, `--programs` where commands are to be run, STORE, HOST and the arguments. Where STORE or
    /// HOST is missing or empty there are no arguments.
    pub fn of(arguments: &'a [String]) -> CommandLine<'a>
        ensures { IsCommandLine (map string_bytes arguments.now) result.programs
            result.store.now result.host.now (map string_bytes result.words.now) }
    {
        let programs = programs_on(arguments);
        CommandLine::on(programs, words_after(programs, arguments))
    }

    // Reads STORE, HOST and the arguments.
    fn on(programs: bool, words: &'a [String]) -> CommandLine<'a>
        ensures programs { result.programs ≡ programs }
        ensures split { IsSplit (map string_bytes words.now) result.store.now result.host.now
            (map string_bytes result.words.now) }
    {
        match words {
            [store, host, words @ ..] if !store.is_empty() && !host.is_empty() => CommandLine {
                programs,
                store: store.as_str(),
                host: host.as_str(),
                words,
            },
            _ => CommandLine {
                programs,
                store: "",
                host: "",
                words: &[],
            },
        }
    }
}

// Returns whether the first word after the program's name turns programs on.
fn programs_on(line: &[String]) -> bool
    ensures { result ≡ programs_on (map string_bytes line.now) }
{
    match line {
        [_program, first, ..] => first.as_str() == "--programs",
        _ => false,
    }
}

fn words_after(programs: bool, line: &[String]) -> &[String]
    ensures { map string_bytes result.now ≡ words_after programs (map string_bytes line.now) }
{
    let words = if programs {
        line.get(2..)
    } else {
        line.get(1..)
    };
    words.unwrap_or(&[])
}
