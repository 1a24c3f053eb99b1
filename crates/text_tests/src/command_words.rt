//! Tests of `words`.
use crate::expect::expect;
use std::alloc::Global;
use std::io::{self, Write};
use std::process::Abort;
use words::{Asked, Command, read_words};

/// The words that bars separate; an empty line has none.
fn owned(rt: &impl Abort, alloc: Global, line: &str) -> Vec<String> {
    let mut list = Vec::new(alloc);
    if !line.is_empty() {
        for word in line.split('|') {
            list.push(String::from_str(alloc, word).expect(rt, "no fault"))
                .expect(rt, "no fault");
        }
    }
    list
}

/// Writes a command with its arguments.
fn tell_command(told: &mut Vec<u8>, command: &Command) -> io::Result<()> {
    match *command {
        Command::Uci => write!(told, "Uci"),
        Command::Xboard => write!(told, "Xboard"),
        Command::Moves => write!(told, "Moves"),
        Command::Status => write!(told, "Status"),
        Command::Checkers => write!(told, "Checkers"),
        Command::Perft(plies) => write!(told, "Perft {plies}"),
        Command::Check => write!(told, "Check"),
        Command::SelfMate(moves) => write!(told, "SelfMate {moves}"),
        Command::HelpMate(moves) => write!(told, "HelpMate {moves}"),
        Command::CheckCert => write!(told, "CheckCert"),
        Command::Variants => write!(told, "Variants"),
        Command::Suite => write!(told, "Suite"),
        Command::PnMate(moves) => write!(told, "PnMate {moves}"),
        Command::Keys(moves) => write!(told, "Keys {moves}"),
        Command::Reach {
            word,
            square,
            own,
            enemy,
        } => write!(told, "Reach {word}|{square}|{own}|{enemy}"),
        Command::Generate {
            name,
            number,
            plies,
        } => write!(told, "Generate {name}|{number}|{plies}"),
        Command::RulesOf(name) => write!(told, "RulesOf {name}"),
        Command::Help => write!(told, "Help"),
        Command::Version => write!(told, "Version"),
    }
}

/// Writes the file of variants, the number of threads and the command, on a line.
fn tell(told: &mut Vec<u8>, asked: &Asked) -> io::Result<()> {
    write!(told, "{:?} {} ", asked.variants, asked.threads)?;
    tell_command(told, &asked.command)?;
    writeln!(told)
}

/// What the words of the lines ask, on a line for each that asks something.
fn answers(rt: &impl Abort, alloc: Global, lines: &str) -> Vec<u8> {
    let mut told = Vec::new(alloc);
    for line in lines.split('\n') {
        let list = owned(rt, alloc, line);
        if let Some(asked) = read_words(alloc, list.as_slice()).expect(rt, "no fault") {
            tell(&mut told, &asked).expect(rt, "no fault");
        }
    }
    told
}

#[test]
fn commands_are_read(rt: HostRuntime) {
    let lines =
        "\nuci\nxboard\nmoves\nstatus\nperft|1\nperft|00000000000000000009\ncheck\nstipulate|self|1\n\
        stipulate|help|06\nstipulate|check\nvariants\nsuite\npnmate|100\nkeys|020\nreach|N|b1\nreach|||\n\
        reach|N|b1|a1,a2|c3\ngenerate|chess|18446744073709551615|08192\nrules|xiangqi\ncheckers\nhelp";
    let told = answers(&rt, rt.alloc(), lines);
    let wanted = b"\
        None 1 Uci\n\
        None 1 Uci\n\
        None 1 Xboard\n\
        None 1 Moves\n\
        None 1 Status\n\
        None 1 Perft 1\n\
        None 1 Perft 9\n\
        None 1 Check\n\
        None 1 SelfMate 1\n\
        None 1 HelpMate 6\n\
        None 1 CheckCert\n\
        None 1 Variants\n\
        None 1 Suite\n\
        None 1 PnMate 100\n\
        None 1 Keys 20\n\
        None 1 Reach N|b1|none|none\n\
        None 1 Reach |||none\n\
        None 1 Reach N|b1|a1,a2|c3\n\
        None 1 Generate chess|18446744073709551615|8192\n\
        None 1 RulesOf xiangqi\n\
        None 1 Checkers\n\
        None 1 Help\n";
    expect(&rt, told.as_slice() == wanted.as_slice());
}

#[test]
fn options_are_read(rt: HostRuntime) {
    let lines =
        "--threads|4\n--threads|4|moves\n--threads=64|moves\n--threads|00000000000000000007|moves\n\
        --variants|f|moves\n--variants=a=b|moves\n--variants|moves|moves\n--variants|é ü.ini|moves\n\
        --variants|f|--threads|2|moves\n--threads|2|--variants=f|moves";
    let told = answers(&rt, rt.alloc(), lines);
    let wanted = "\
        None 4 Uci\n\
        None 4 Moves\n\
        None 64 Moves\n\
        None 7 Moves\n\
        Some(\"f\") 1 Moves\n\
        Some(\"a=b\") 1 Moves\n\
        Some(\"moves\") 1 Moves\n\
        Some(\"é ü.ini\") 1 Moves\n\
        Some(\"f\") 2 Moves\n\
        Some(\"f\") 2 Moves\n";
    expect(&rt, told.as_slice() == wanted.as_bytes());
}

#[test]
fn two_words_with_dashes_stand_alone(rt: HostRuntime) {
    let lines =
        "--help\n--version\n--help|help\n--version|--help\nhelp|--help\n--threads|2|--version\n\
        --Help\n--help=\nhelp|moves\nversion\ncheckers|chess\n--threads|2|help";
    let told = answers(&rt, rt.alloc(), lines);
    expect(
        &rt,
        told.as_slice() == b"None 1 Help\nNone 1 Version\nNone 2 Help\n".as_slice(),
    );
}

// The last line of each text asks something.
#[test]
fn other_words_ask_nothing(rt: HostRuntime) {
    let commands =
        "Uci\nMoves\nmoves|\nreach|N\nreach|N|b1|none|none|none\nreach|N|b1|-\nreach|-N|b1\nuci|f\n\
        suite|f\nrules\nrules|a|b\nkeys|0\nkeys|21\npnmate\npnmate|101\nstipulate\nstipulate|self|0\n\
        stipulate|help|7\nstipulate|mate|1\nperft\nperft|4|4\nperft|0\n\
        perft|10\nperft|000000000000000000004\nxboard|1\nperft|4";
    let told = answers(&rt, rt.alloc(), commands);
    expect(&rt, told.as_slice() == b"None 1 Perft 4\n".as_slice());
    let options = "--\n--|moves\n-threads|4|moves\n--=4|moves\n--threads\n\
        --threads|4|--threads|4|moves\n--variants|a|--variants=a|moves\n--threads=|moves\n--variants=|moves\n\
        --variants|-f|moves\n--variants|--threads|4|moves\n--threads|0|moves\n--threads|65|moves\n\
        --threads|000000000000000000007|moves\n--threads|18446744073709551616|moves\n--threads|٤|moves\n\
        moves|--threads|4\n--threads|4|moves";
    let told = answers(&rt, rt.alloc(), options);
    expect(&rt, told.as_slice() == b"None 4 Moves\n".as_slice());
}
