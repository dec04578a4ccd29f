//! What completes command lines in a shell, made of the commands themselves.
use clap::builder::ValueParser;
use clap::{Arg, ArgAction, Command};
use std::alloc::{AllocError, Global};

/// A shell that completes command lines.
#[derive(Clone, Copy, Debug, PartialEq, Eq)]
pub enum Shell {
    Bash,
    Zsh,
    Fish,
}

// Appends these texts, one after another.
fn put(out: &mut String, texts: &[&str]) -> Result<(), AllocError> {
    'texts: for text in texts {
        out.push_str(text)?;
    }
    Ok(())
}

// Appends words, a blank before each.
fn put_words(out: &mut String, words: &[&str]) -> Result<(), AllocError> {
    'words: for word in words {
        put(out, &[" ", word])?;
    }
    Ok(())
}

// Appends a text in single quotes, as a shell reads them.
fn put_quoted(out: &mut String, text: &str) -> Result<(), AllocError> {
    out.push('\'')?;
    'chars: for c in text.chars() {
        if c == '\'' {
            out.push_str("'\\''")?;
        } else {
            out.push(c)?;
        }
    }
    out.push('\'')
}

// Whether its value is one of a few words.
fn has_words(arg: &Arg<'_>) -> bool {
    matches!(arg.get_value_parser(), ValueParser::Names(_))
}

// Appends the words that its value may be: none where it is of another kind.
fn put_words_of(out: &mut String, arg: &Arg<'_>) -> Result<(), AllocError> {
    match arg.get_value_parser() {
        ValueParser::Names(names) => put_words(out, names),
        _ => Ok(()),
    }
}

// Whether it takes a value.
fn has_value(arg: &Arg<'_>) -> bool {
    !matches!(arg.get_action(), ArgAction::SetTrue)
}

// Whether what stands behind its options is the name of a file, which a shell completes by itself.
fn takes_file(command: &Command<'_>) -> bool {
    'arguments: for arg in command.get_arguments() {
        if arg.get_long().is_none() && !has_words(arg) {
            return true;
        }
    }
    false
}

// Appends the names of the commands.
fn put_commands(out: &mut String, program: &Command<'_>) -> Result<(), AllocError> {
    'commands: for command in program.get_subcommands() {
        put(out, &[" ", command.get_name()])?;
    }
    Ok(())
}

// Appends the options of a command.
fn put_options(out: &mut String, command: &Command<'_>) -> Result<(), AllocError> {
    'options: for arg in command.get_arguments() {
        if let Some(long) = arg.get_long() {
            put(out, &[" --", long])?;
        }
    }
    out.push_str(" --help")
}

// Appends for bash what may stand behind an option that takes a value, or in place of an argument.
fn put_value(out: &mut String, command: &Command<'_>, arg: &Arg<'_>) -> Result<(), AllocError> {
    match arg.get_long() {
        Some(long) if has_value(arg) => put(out, &["        --", long, ") words='"])?,
        None if has_words(arg) => {
            put(out, &["        ", command.get_name(), ") words='--help"])?;
        }
        // A flag, or the name of a file, which bash completes by itself.
        _ => return Ok(()),
    }
    put_words_of(out, arg)?;
    out.push_str("' ;;\n")
}

// Appends for bash what may stand behind the words of a command.
fn put_command(out: &mut String, command: &Command<'_>) -> Result<(), AllocError> {
    put(
        out,
        &["    *:", command.get_name(), ")\n        case $last in\n"],
    )?;
    'options: for arg in command.get_arguments() {
        put_value(out, command, arg)?;
    }
    if takes_file(command) {
        out.push_str("        *) [[ $word != -* ]] || words='")?;
    } else {
        out.push_str("        *) words='")?;
    }
    put_options(out, command)?;
    out.push_str("' ;;\n        esac ;;\n")
}

// Appends for bash what may stand behind `help`: a command, or one of these topics.
fn put_help(out: &mut String, program: &Command<'_>, topics: &[&str]) -> Result<(), AllocError> {
    out.push_str("    2:help) words='")?;
    put_commands(out, program)?;
    put_words(out, topics)?;
    out.push_str("' ;;\n")
}

// Appends a function that bash completes by, and zsh as bash does.
fn put_function(
    out: &mut String,
    program: &Command<'_>,
    topics: &[&str],
) -> Result<(), AllocError> {
    out.push_str("_txkv_words() {\n    local word=${COMP_WORDS[COMP_CWORD]} words=\n")?;
    out.push_str("    local last=${COMP_WORDS[COMP_CWORD-1]}\n")?;
    out.push_str("    case $COMP_CWORD:${COMP_WORDS[1]} in\n    1:*) words='")?;
    put_commands(out, program)?;
    out.push_str(" help --help --version' ;;\n")?;
    put_help(out, program, topics)?;
    'commands: for command in program.get_subcommands() {
        put_command(out, command)?;
    }
    out.push_str("    esac\n    COMPREPLY=($(compgen -W \"$words\" -- \"$word\"))\n}\n")?;
    out.push_str("complete -o default -F _txkv_words txkv\n")
}

// Appends for fish what an option or an argument of a command is.
fn put_fish_option(
    out: &mut String,
    command: &Command<'_>,
    arg: &Arg<'_>,
) -> Result<(), AllocError> {
    if arg.get_long().is_none() && !has_words(arg) {
        // The name of a file, which fish completes by itself.
        return Ok(());
    }
    let name = command.get_name();
    put(
        out,
        &[
            "complete -c txkv -n '__fish_seen_subcommand_from ",
            name,
            "'",
        ],
    )?;
    if let Some(long) = arg.get_long() {
        put(out, &[" -l ", long])?;
    }
    if has_value(arg) {
        out.push_str(" -x -a '")?;
        put_words_of(out, arg)?;
        out.push('\'')?;
    }
    out.push_str(" -d ")?;
    put_quoted(out, arg.get_help().unwrap_or_default())?;
    out.push('\n')
}

// Appends for fish the options of a command, and the command.
fn put_fish_command(out: &mut String, command: &Command<'_>) -> Result<(), AllocError> {
    let name = command.get_name();
    put(
        out,
        &[
            "complete -c txkv -n __fish_use_subcommand -f -a ",
            name,
            " -d ",
        ],
    )?;
    put_quoted(out, command.get_about().unwrap_or_default())?;
    out.push('\n')?;
    'options: for arg in command.get_arguments() {
        put_fish_option(out, command, arg)?;
    }
    Ok(())
}

fn put_fish(out: &mut String, program: &Command<'_>, topics: &[&str]) -> Result<(), AllocError> {
    'commands: for command in program.get_subcommands() {
        put_fish_command(out, command)?;
    }
    out.push_str("complete -c txkv -n __fish_use_subcommand -f -a help -d 'Tell of a word'\n")?;
    out.push_str("complete -c txkv -n '__fish_seen_subcommand_from help' -f -a '")?;
    put_commands(out, program)?;
    put_words(out, topics)?;
    out.push_str("'\n")
}

/// What completes the command lines of a program called `txkv` in a shell, as a text that it reads:
/// the commands, their options, the words that a value may be where they are a few, and behind
/// `help` the commands and these topics. Names of files are completed as the shell does by itself.
/// Refused where a growth is.
pub fn completions(
    alloc: Global,
    program: &Command<'_>,
    topics: &[&str],
    shell: Shell,
) -> Result<String, AllocError> {
    let mut out = String::new(alloc);
    match shell {
        Shell::Bash => put_function(&mut out, program, topics)?,
        Shell::Zsh => {
            out.push_str("#compdef txkv\nautoload -U +X bashcompinit && bashcompinit\n")?;
            put_function(&mut out, program, topics)?;
        }
        Shell::Fish => put_fish(&mut out, program, topics)?,
    }
    Ok(out)
}
