//! The commands, by the words of a command line.
ghost use Rattle.std.specs.Prelude.{◌≡◌};
ghost use Rattle.std.specs.Option.{option_map};
ghost use Rattle.xmp_cli.specs.Commands.{command, demo_number, is_demo_number, with_one, with_two, with_three, with_four};
ghost use Rattle.xmp_cli.specs.Meant.{meant};

use itoa::Buffer;
use xmp_base::Words;

/// A command and its operands.
#[derive(Clone, Copy, Debug, PartialEq, Eq)]
pub enum Command<'w> {
    /// Shows one value.
    Get {
        file: &'w str,
        path: &'w str,
    },
    /// Shows the tree.
    Tree {
        file: &'w str,
    },
    /// Writes OUT with one property set.
    Set {
        file: &'w str,
        out: &'w str,
        path: &'w str,
        value: &'w str,
    },
    /// Writes OUT with the edits of a script.
    Apply {
        file: &'w str,
        out: &'w str,
        script: &'w str,
    },
    /// Changes FILE inside its packet.
    Patch {
        file: &'w str,
        script: &'w str,
    },
    /// Writes OUT with the reconciled properties.
    Reconcile {
        file: &'w str,
        out: &'w str,
    },
    /// Lists findings.
    Check {
        file: &'w str,
    },
    /// Runs the generator.
    Demo {
        number: u16,
    },
    /// Writes OUT with the properties in its Exif and IPTC blocks.
    Sync {
        file: &'w str,
        out: &'w str,
    },
}

/// The command that the words name.
pub fn named_command(words: &Words) -> Option<Command<'_>>
    ensures { option_map meant result ≡ command words.now }
{
    let verb = words.get(0)?;
    let first = words.get(1)?;
    match words.len() {
        2 => one_operand(verb, first),
        3 => two_operands(verb, first, words.get(2)?),
        4 => three_operands(verb, first, words.get(2)?, words.get(3)?),
        5 => four_operands(verb, first, words.get(2)?, words.get(3)?, words.get(4)?),
        _ => None,
    }
}

fn one_operand<'w>(verb: &str, operand: &'w str) -> Option<Command<'w>>
    ensures { option_map meant result ≡ with_one verb.now operand.now }
{
    match verb {
        "tree" => Some(Command::Tree { file: operand }),
        "check" => Some(Command::Check { file: operand }),
        "demo" => match demo_number(operand) {
            Some(number) => Some(Command::Demo { number }),
            None => None,
        },
        _ => None,
    }
}

fn two_operands<'w>(verb: &str, file: &'w str, other: &'w str) -> Option<Command<'w>>
    ensures { option_map meant result ≡ with_two verb.now file.now other.now }
{
    if verb == "get" {
        return Some(Command::Get { file, path: other });
    }
    if file == other {
        return None;
    }
    match verb {
        "patch" => Some(Command::Patch {
            file,
            script: other,
        }),
        "reconcile" => Some(Command::Reconcile { file, out: other }),
        "sync" => Some(Command::Sync { file, out: other }),
        _ => None,
    }
}

fn three_operands<'w>(
    verb: &str,
    file: &'w str,
    out: &'w str,
    script: &'w str,
) -> Option<Command<'w>>
    ensures { option_map meant result ≡ with_three verb.now file.now out.now script.now }
{
    if verb == "apply" && file != out && file != script && out != script {
        Some(Command::Apply { file, out, script })
    } else {
        None
    }
}

fn four_operands<'w>(
    verb: &str,
    file: &'w str,
    out: &'w str,
    path: &'w str,
    value: &'w str,
) -> Option<Command<'w>>
    ensures { option_map meant result ≡ with_four verb.now file.now out.now path.now value.now }
{
    if verb == "set" && file != out {
        Some(Command::Set {
            file,
            out,
            path,
            value,
        })
    } else {
        None
    }
}

/// A decimal from 1 to 5000, without leading zeros.
fn demo_number(word: &str) -> Option<u16>
    ensures { result ≡ demo_number word.now }
{
    let Ok(number) = word.parse::<u16>() else {
        return None;
    };
    if is_demo_number(word, number) {
        Some(number)
    } else {
        None
    }
}

fn is_demo_number(word: &str, number: u16) -> bool
    ensures { result ≡ is_demo_number word.now number }
{
    let mut digits = Buffer::new();
    1 <= number && number <= 5000 && word == digits.format(number)
}
