//! Completions of commands and options in shells, made of the table of commands.

use crate::syntax::{ALWAYS, Argument, DESCRIBED, Described, HELP, NEVER, SHELLS, Takes};
use std::alloc::{AllocError, Global};

/// A shell whose command lines can be completed.
#[derive(Clone, Copy)]
pub enum Shell {
    Bash,
    Zsh,
    Fish,
}

impl Shell {
    /// The shell of this name, if it is one of these.
    pub fn named(name: &str) -> Option<Shell> {
        match name {
            "bash" => Some(Shell::Bash),
            "zsh" => Some(Shell::Zsh),
            "fish" => Some(Shell::Fish),
            _ => None,
        }
    }
}

/// What a shell reads to complete the program's commands and options; a file's name is completed everywhere else.
pub fn completions(alloc: Global, shell: Shell) -> Result<String, AllocError> {
    let mut out = String::new(alloc);
    match shell {
        Shell::Bash => put_bash(&mut out)?,
        Shell::Zsh => put_zsh(&mut out)?,
        Shell::Fish => put_fish(&mut out)?,
    }
    Ok(out)
}

// Whether an argument is an option, which begins with two dashes.
fn is_option(takes: Takes) -> bool {
    !matches!(
        takes,
        Takes::Word | Takes::Words(_) | Takes::Some(_) | Takes::Shell
    )
}

// Whether a command takes the name of a shell.
fn takes_shell(described: &Described) -> bool {
    described
        .arguments
        .iter()
        .any(|argument| matches!(argument.takes, Takes::Shell))
}

// Puts names with a blank before each.
fn put_names(out: &mut String, names: &[&str]) -> Result<(), AllocError> {
    for name in names {
        write!(out, " {name}")?;
    }
    Ok(())
}

// Puts the names of all commands, with a blank before each.
fn put_commands(out: &mut String) -> Result<(), AllocError> {
    for described in &DESCRIBED {
        write!(out, " {}", described.name)?;
    }
    write!(out, " {HELP}")
}

// ---- bash

const BASH_HEAD: &str = "\
# Completes brokerd's commands and options in bash: source this, or put it into share/bash-completion/completions/brokerd.
_brokerd() {
    local word=${COMP_WORDS[COMP_CWORD]} words
    COMPREPLY=()
    case $COMP_CWORD,${COMP_WORDS[1]},$word in
    1,*) words='";

const BASH_TAIL: &str = "    *) return ;;
    esac
    COMPREPLY=($(compgen -W \"$words\" -- \"$word\"))
}
complete -o default -F _brokerd brokerd
";

// Puts the options of a command, with a blank before each.
fn put_bash_options(out: &mut String, described: &Described) -> Result<(), AllocError> {
    for argument in described.arguments {
        if is_option(argument.takes) {
            write!(out, " --{}", argument.name)?;
        }
    }
    out.push_str(" --help")
}

// Puts what may stand behind a command: its options, or the names of shells.
fn put_bash_command(out: &mut String, described: &Described) -> Result<(), AllocError> {
    if takes_shell(described) {
        write!(out, "    *,{},*) words='", described.name)?;
        put_names(out, &SHELLS)?;
    } else {
        write!(out, "    *,{},-*) words='", described.name)?;
        put_bash_options(out, described)?;
    }
    out.push_str("' ;;\n")
}

fn put_bash(out: &mut String) -> Result<(), AllocError> {
    out.push_str(BASH_HEAD)?;
    put_commands(out)?;
    write!(out, " --help --version' ;;\n    *,{HELP},*) words='")?;
    put_commands(out)?;
    out.push_str("' ;;\n")?;
    for described in &DESCRIBED {
        put_bash_command(out, described)?;
    }
    out.push_str(BASH_TAIL)
}

// ---- zsh

const ZSH_HEAD: &str = "\
#compdef brokerd
# Completes brokerd's commands and options in zsh: put this into a folder of $fpath as _brokerd.
_brokerd() {
  local -a commands
  commands=(
";

const ZSH_COMMANDS_END: &str = "    'help:Prints the help, of a command too'
  )
  if (( CURRENT == 2 )); then
    _describe command commands
    return
  fi
  local command=$words[2]
  shift words
  (( CURRENT-- ))
  case $command in
";

const ZSH_TAIL: &str = "  help) _describe command commands ;;
  *) _files ;;
  esac
}
if [ \"$funcstack[1]\" = _brokerd ]; then _brokerd \"$@\"; else compdef _brokerd brokerd; fi
";

// How a quote stands between single quotes of zsh, and the characters that its lists of options would read.
const ZSH_QUOTE: &str = "'\\''";

const ZSH_READ: &str = "[]:";

// Puts a help between single quotes of a shell, on one line: a quote stands there as this, and a backslash before each of
// these characters.
fn put_help(out: &mut String, help: &str, quote: &str, read: &str) -> Result<(), AllocError> {
    for character in help.chars() {
        if character == '\'' {
            out.push_str(quote)?;
        } else if character == '\n' {
            out.push(' ')?;
        } else {
            out.push_str(if read.contains(character) { "\\" } else { "" })?;
            out.push(character)?;
        }
    }
    Ok(())
}

// What stands between an option's name and its help: an equals sign, where it takes a value, and a dash, where it takes none else.
fn zsh_mark(takes: Takes) -> &'static str {
    match takes {
        Takes::Nothing => "[",
        Takes::When => "=-[",
        _ => "=[",
    }
}

// Puts an option as zsh's `_arguments` takes it: its name and help, and what it takes.
fn put_zsh_option(out: &mut String, argument: &Argument) -> Result<(), AllocError> {
    let mark = zsh_mark(argument.takes);
    write!(out, "--{}{mark}", argument.name)?;
    put_help(out, argument.help, ZSH_QUOTE, ZSH_READ)?;
    match argument.takes {
        Takes::Nothing => out.push_str("]"),
        Takes::When => write!(out, "]::when:({NEVER} {ALWAYS})"),
        Takes::Value(_) | Takes::Lettered(_) => out.push_str("]:file:_files"),
        _ => out.push_str("]:number:"),
    }
}

// Puts an argument as it takes it: a file is the first word, or each further one.
fn put_zsh_argument(out: &mut String, argument: &Argument) -> Result<(), AllocError> {
    out.push_str(" \\\n    '")?;
    match argument.takes {
        Takes::Word => out.push_str("1:file:_files")?,
        Takes::Words(_) | Takes::Some(_) => out.push_str("*:file:_files")?,
        Takes::Shell => {
            out.push_str("1:shell:(")?;
            put_names(out, &SHELLS)?;
            out.push_str(")")?;
        }
        _ => put_zsh_option(out, argument)?,
    }
    out.push_str("'")
}

// Puts a command's name and what the help says of it.
fn put_zsh_name(out: &mut String, described: &Described) -> Result<(), AllocError> {
    write!(out, "    '{}:", described.name)?;
    put_help(out, described.about, ZSH_QUOTE, ZSH_READ)?;
    out.push_str("'\n")
}

// Puts what may stand behind a command.
fn put_zsh_command(out: &mut String, described: &Described) -> Result<(), AllocError> {
    write!(out, "  {}) _arguments", described.name)?;
    for argument in described.arguments {
        put_zsh_argument(out, argument)?;
    }
    out.push_str(" \\\n    '--help[Prints help]' ;;\n")
}

fn put_zsh(out: &mut String) -> Result<(), AllocError> {
    out.push_str(ZSH_HEAD)?;
    for described in &DESCRIBED {
        put_zsh_name(out, described)?;
    }
    out.push_str(ZSH_COMMANDS_END)?;
    for described in &DESCRIBED {
        put_zsh_command(out, described)?;
    }
    out.push_str(ZSH_TAIL)
}

// ---- fish

const FISH_HEAD: &str = "\
# Completes brokerd's commands and options in fish: put this into share/fish/vendor_completions.d/brokerd.fish.
complete -c brokerd -n __fish_use_subcommand -l help -d 'Prints help'
complete -c brokerd -n __fish_use_subcommand -l version -d 'Prints the version'
complete -c brokerd -n __fish_use_subcommand -f -a help -d 'Prints the help, of a command too'
";

// How a quote stands between single quotes of fish.
const FISH_QUOTE: &str = "\\'";

// Puts a command with what the help says of it.
fn put_fish_name(out: &mut String, described: &Described) -> Result<(), AllocError> {
    write!(
        out,
        "complete -c brokerd -n __fish_use_subcommand -f -a {} -d '",
        described.name
    )?;
    put_help(out, described.about, FISH_QUOTE, "")?;
    out.push_str("'\n")
}

// Puts what an argument takes.
fn put_fish_takes(out: &mut String, argument: &Argument) -> Result<(), AllocError> {
    match argument.takes {
        Takes::Nothing => write!(out, "-l {}", argument.name),
        Takes::When => write!(out, "-l {} -f -a '{NEVER} {ALWAYS}'", argument.name),
        Takes::Value(_) => write!(out, "-l {} -r -F", argument.name),
        Takes::Lettered(letter) => write!(out, "-s {letter} -l {} -r -F", argument.name),
        Takes::Shell => {
            out.push_str("-x -a '")?;
            put_names(out, &SHELLS)?;
            out.push_str("'")
        }
        _ => write!(out, "-l {} -x", argument.name),
    }
}

// Puts an argument of a command; a file needs no line, since fish completes it.
fn put_fish_argument(
    out: &mut String,
    command: &str,
    argument: &Argument,
) -> Result<(), AllocError> {
    if matches!(
        argument.takes,
        Takes::Word | Takes::Words(_) | Takes::Some(_)
    ) {
        return Ok(());
    }
    write!(
        out,
        "complete -c brokerd -n '__fish_seen_subcommand_from {command}' "
    )?;
    put_fish_takes(out, argument)?;
    out.push_str(" -d '")?;
    put_help(out, argument.help, FISH_QUOTE, "")?;
    out.push_str("'\n")
}

// Puts a command with its arguments.
fn put_fish_command(out: &mut String, described: &Described) -> Result<(), AllocError> {
    put_fish_name(out, described)?;
    for argument in described.arguments {
        put_fish_argument(out, described.name, argument)?;
    }
    Ok(())
}

fn put_fish(out: &mut String) -> Result<(), AllocError> {
    out.push_str(FISH_HEAD)?;
    for described in &DESCRIBED {
        put_fish_command(out, described)?;
    }
    write!(
        out,
        "complete -c brokerd -n '__fish_seen_subcommand_from {HELP}' -f -a '"
    )?;
    put_commands(out)?;
    out.push_str("'\n")
}
