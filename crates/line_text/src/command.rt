// Commands.
ghost use Rattle.std.specs.Prelude.{◌≡◌, ◌++◌, ◌∷◌, length, take, codes, IfOk, OnOk, OnErr, Err, Some, None};
ghost use Rattle.std.specs.Fmt.{decimal};
ghost use Rattle.khepri_terms.specs.Paths.{path_text};
ghost use Rattle.khepri_terms.specs.Records.{rec_text};
ghost use Rattle.khepri_types.specs.ScriptTexts.{script_text};
ghost use Rattle.khepri_types.specs.ConditionTexts.{condition_text};
ghost use Rattle.khepri_types.specs.PatternTexts.{pattern_text};
ghost use Rattle.khepri_types.specs.Texts.{payload_text, watching_text, assigned_text, command_text};
ghost use Rattle.line_text.specs.Grammar.{SpellsCommand, IsNoCommand};
ghost use Rattle.khepri_types.specs.Reading.{spelled_path, spelled_set, spelled_assigned, spelled_cas, spelled_pattern, spelled_limit, limit_behind, spelled_many, spelled_tx, args_behind, spelled_run, running, deleting_or_asking, spelled_command};

use crate::payload::{append_payload, read_payload, read_whole_script};
use crate::watch::{append_asked, append_watching, read_asked, read_watching};
use condition_text::words::{append_number, append_word, read_mark, strip};
use condition_text::{append_pattern, read_pattern};
use khepri_terms::numbers::read_number;
use khepri_terms::texts::keep_whole;
use khepri_terms::{Path, Rec, TextFault};
use khepri_types::limits::MAX_SHOWN_NODES;
use khepri_types::{Command, Condition, Pattern, Payload, Script, Watching};
use std::alloc::{AllocError, Global};

/// Appends the spelling of a command; where memory is wanting, nothing.
pub fn print_command(cmd: &Command, out: &mut Vec<u8>) -> Result<(), AllocError>
    ensures ok { OnOk result (out.new.items ≡ out.old.items ++ command_text cmd.now) }
    ensures err { OnErr result (out.new.items ≡ out.old.items) }
{
    let len = out.len();
    let printed = append_command(cmd, out);
    keep_whole(printed, len, out)
}

#[tactic(auto, unfolding(khepri_types::specs::Texts::command_text))]
pub(crate) fn append_command(cmd: &Command, out: &mut Vec<u8>) -> Result<(), AllocError>
    ensures ok { OnOk result (out.new.items ≡ out.old.items ++ command_text cmd.now) }
    ensures front { take (length out.old.items) out.new.items ≡ out.old.items }
{
    match cmd {
        Command::Put {
            path,
            payload,
            watch,
        } => append_assigned(b"put ", path, payload, watch, out),
        Command::Create {
            path,
            payload,
            watch,
        } => append_assigned(b"create ", path, payload, watch, out),
        Command::Update {
            path,
            payload,
            watch,
        } => append_assigned(b"update ", path, payload, watch, out),
        Command::Cas {
            path,
            cond,
            payload,
            watch,
        } => append_cas(path, cond, payload, watch, out),
        Command::Clear { path } => append_path(b"clear ", path, out),
        Command::Del { path } => append_path(b"del ", path, out),
        Command::Delmany { pattern } => append_scan(b"delmany ", pattern, out),
        Command::Get { path } => append_path(b"get ", path, out),
        Command::Many { pattern, limit } => append_many(pattern, *limit, out),
        Command::Count { pattern } => append_scan(b"count ", pattern, out),
        Command::Tx { args, script } => append_tx(args, script, out),
        Command::Run { path, args } => append_run(path, args, out),
    }
}

// Appends `tx REC SCRIPT`.
fn append_tx(args: &Rec, script: &Script, out: &mut Vec<u8>) -> Result<(), AllocError>
    ensures ok { OnOk result (out.new.items ≡ out.old.items ++ (codes "tx " ++ rec_text args.now ++ 32 ∷ script_text script.now)) }
    ensures front { take (length out.old.items) out.new.items ≡ out.old.items }
{
    append_rec(b"tx ", args, out)?;
    append_word(b" ", out)?;
    append_word(script.text(), out)
}

// Appends `run PATH REC`.
fn append_run(path: &Path, args: &Rec, out: &mut Vec<u8>) -> Result<(), AllocError>
    ensures ok { OnOk result (out.new.items ≡ out.old.items ++ (codes "run " ++ path_text path.now ++ 32 ∷ rec_text args.now)) }
    ensures front { take (length out.old.items) out.new.items ≡ out.old.items }
{
    append_path(b"run ", path, out)?;
    append_rec(b" ", args, out)
}

// Appends a word and a record.
#[tactic(auto, using(khepri_terms::proofs::Printing::front_then))]
fn append_rec(word: &[u8], rec: &Rec, out: &mut Vec<u8>) -> Result<(), AllocError>
    ensures ok { OnOk result (out.new.items ≡ out.old.items ++ (word.now ++ rec_text rec.now)) }
    ensures front { take (length out.old.items) out.new.items ≡ out.old.items }
{
    append_word(word, out)?;
    rec.print(out)
}

// Appends `cas PATH COND`, a space, a payload, and what is said of watches.
fn append_cas(
    path: &Path,
    cond: &Condition,
    payload: &Payload,
    watch: &Watching,
    out: &mut Vec<u8>,
) -> Result<(), AllocError>
    ensures ok { OnOk result (out.new.items ≡ out.old.items ++ (codes "cas " ++ path_text path.now ++ 32 ∷ condition_text cond.now ++ 32 ∷ payload_text payload.now ++ watching_text watch.now)) }
    ensures front { take (length out.old.items) out.new.items ≡ out.old.items }
{
    append_word(b"cas ", out)?;
    append_asked(path, cond, out)?;
    append_set(payload, watch, out)
}

// Appends `many PATTERN C`.
fn append_many(pattern: &Pattern, limit: u64, out: &mut Vec<u8>) -> Result<(), AllocError>
    ensures ok { OnOk result (out.new.items ≡ out.old.items ++ (codes "many " ++ pattern_text pattern.now ++ 32 ∷ decimal limit)) }
    ensures front { take (length out.old.items) out.new.items ≡ out.old.items }
{
    append_scan(b"many ", pattern, out)?;
    append_number(b" ", limit, out)
}

/// Appends a word and a path.
#[tactic(auto, using(khepri_terms::proofs::Printing::front_then))]
pub(crate) fn append_path(word: &[u8], path: &Path, out: &mut Vec<u8>) -> Result<(), AllocError>
    ensures ok { OnOk result (out.new.items ≡ out.old.items ++ (word.now ++ path_text path.now)) }
    ensures front { take (length out.old.items) out.new.items ≡ out.old.items }
{
    append_word(word, out)?;
    path.print(out)
}

// Appends a word and a pattern.
fn append_scan(word: &[u8], pattern: &Pattern, out: &mut Vec<u8>) -> Result<(), AllocError>
    ensures ok { OnOk result (out.new.items ≡ out.old.items ++ (word.now ++ pattern_text pattern.now)) }
    ensures front { take (length out.old.items) out.new.items ≡ out.old.items }
{
    append_word(word, out)?;
    append_pattern(pattern, out)
}

// Appends a space, a payload, and what is said of watches.
fn append_set(payload: &Payload, watch: &Watching, out: &mut Vec<u8>) -> Result<(), AllocError>
    ensures ok { OnOk result (out.new.items ≡ out.old.items ++ (32 ∷ (payload_text payload.now ++ watching_text watch.now))) }
    ensures front { take (length out.old.items) out.new.items ≡ out.old.items }
{
    append_word(b" ", out)?;
    append_payload(payload, out)?;
    append_watching(watch, out)
}

// Appends a word, a path, a payload, and what is said of watches.
#[tactic(auto, unfolding(khepri_types::specs::Texts::assigned_text))]
fn append_assigned(
    word: &[u8],
    path: &Path,
    payload: &Payload,
    watch: &Watching,
    out: &mut Vec<u8>,
) -> Result<(), AllocError>
    ensures ok { OnOk result (out.new.items ≡ out.old.items ++ (word.now ++ assigned_text path.now payload.now watch.now)) }
    ensures front { take (length out.old.items) out.new.items ≡ out.old.items }
{
    append_path(word, path, out)?;
    append_set(payload, watch, out)
}

/// The path that the whole text spells.
#[tactic(auto, unfolding(khepri_types::specs::Reading::spelled_path))]
pub(crate) fn read_whole_path(alloc: Global, text: &[u8]) -> Result<Path, TextFault>
    ensures value { IfOk result (λ x. spelled_path text.now ≡ Some x) }
    ensures bad { result ≡ Err TextFault.Bad → spelled_path text.now ≡ None }
{
    let (path, rest) = Path::read(alloc, text)?;
    match rest {
        [] => Ok(path),
        [_, ..] => Err(TextFault::Bad),
    }
}

// The pattern that the whole text spells.
#[tactic(auto, unfolding(khepri_types::specs::Reading::spelled_pattern))]
fn read_whole_pattern(alloc: Global, text: &[u8]) -> Result<Pattern, TextFault>
    ensures value { IfOk result (λ x. spelled_pattern text.now ≡ Some x) }
    ensures bad { result ≡ Err TextFault.Bad → spelled_pattern text.now ≡ None }
{
    let (pattern, rest) = read_pattern(alloc, text)?;
    match rest {
        [] => Ok(pattern),
        [_, ..] => Err(TextFault::Bad),
    }
}

// The payload and what is said of watches, behind a space, as the whole text spells them.
#[tactic(auto, unfolding(khepri_types::specs::Reading::spelled_set))]
fn read_set(alloc: Global, text: &[u8]) -> Result<(Payload, Watching), TextFault>
    ensures value { IfOk result (λ x. spelled_set text.now ≡ Some (x.0, x.1)) }
    ensures bad { result ≡ Err TextFault.Bad → spelled_set text.now ≡ None }
{
    let rest = read_mark(text, b' ')?;
    let (payload, rest) = read_payload(alloc, rest)?;
    let watch = read_watching(alloc, rest)?;
    Ok((payload, watch))
}

// The path, the payload and the watches that the whole text spells.
#[tactic(auto, unfolding(khepri_types::specs::Reading::spelled_assigned))]
fn read_assigned(alloc: Global, text: &[u8]) -> Result<(Path, Payload, Watching), TextFault>
    ensures value { IfOk result (λ x. spelled_assigned text.now ≡ Some (record { path = x.0; payload = x.1; watch = x.2 })) }
    ensures bad { result ≡ Err TextFault.Bad → spelled_assigned text.now ≡ None }
{
    let (path, rest) = Path::read(alloc, text)?;
    let (payload, watch) = read_set(alloc, rest)?;
    Ok((path, payload, watch))
}

// Behind `cas `.
#[tactic(auto, unfolding(khepri_types::specs::Reading::spelled_cas))]
fn read_cas(alloc: Global, text: &[u8]) -> Result<Command, TextFault>
    ensures value { IfOk result (λ x. spelled_cas text.now ≡ Some x) }
    ensures bad { result ≡ Err TextFault.Bad → spelled_cas text.now ≡ None }
{
    let (path, cond, rest) = read_asked(alloc, text)?;
    let (payload, watch) = read_set(alloc, rest)?;
    Ok(Command::Cas {
        path,
        cond,
        payload,
        watch,
    })
}

// How many nodes the whole text asks for.
#[tactic(auto, unfolding(khepri_types::specs::Reading::spelled_limit))]
fn read_limit(text: &[u8]) -> Result<u64, TextFault>
    ensures value { IfOk result (λ n. spelled_limit text.now ≡ Some n) }
    ensures bad { result ≡ Err TextFault.Bad → spelled_limit text.now ≡ None }
{
    let Some((limit, rest)) = read_number(text, MAX_SHOWN_NODES) else {
        return Err(TextFault::Bad);
    };
    match rest {
        [] => {
            if limit >= 1 {
                return Ok(limit);
            }
            Err(TextFault::Bad)
        }
        [_, ..] => Err(TextFault::Bad),
    }
}

// How many nodes the whole text asks for, behind a space.
#[tactic(auto, unfolding(khepri_types::specs::Reading::limit_behind))]
fn read_limit_behind(text: &[u8]) -> Result<u64, TextFault>
    ensures value { IfOk result (λ n. limit_behind text.now ≡ Some n) }
    ensures bad { result ≡ Err TextFault.Bad → limit_behind text.now ≡ None }
{
    let rest = read_mark(text, b' ')?;
    read_limit(rest)
}

// Behind `many `.
#[tactic(auto, unfolding(khepri_types::specs::Reading::spelled_many))]
fn read_many(alloc: Global, text: &[u8]) -> Result<Command, TextFault>
    ensures value { IfOk result (λ x. spelled_many text.now ≡ Some x) }
    ensures bad { result ≡ Err TextFault.Bad → spelled_many text.now ≡ None }
{
    let (pattern, rest) = read_pattern(alloc, text)?;
    let limit = read_limit_behind(rest)?;
    Ok(Command::Many { pattern, limit })
}

/// The command that the whole text spells. `Bad` says that it spells none.
#[tactic(auto, using(crate::proofs::Grammar::command_read))]
pub fn read_command(alloc: Global, text: &[u8]) -> Result<Command, TextFault>
    ensures value { IfOk result (λ cmd. spelled_command text.now ≡ Some cmd) }
    ensures bad { result ≡ Err TextFault.Bad → spelled_command text.now ≡ None }
    ensures spelled { IfOk result (λ cmd. SpellsCommand text.now cmd) }
    ensures none { result ≡ Err TextFault.Bad → IsNoCommand text.now }
{
    match_command(alloc, text)
}

// The commands that write, each word in turn, and then the others.
pub(crate) fn match_command(alloc: Global, text: &[u8]) -> Result<Command, TextFault>
    ensures value { IfOk result (λ cmd. spelled_command text.now ≡ Some cmd) }
    ensures bad { result ≡ Err TextFault.Bad → spelled_command text.now ≡ None }
{
    if let Some(rest) = strip(text, b"put ") {
        let (path, payload, watch) = read_assigned(alloc, rest)?;
        return Ok(Command::Put {
            path,
            payload,
            watch,
        });
    }
    if let Some(rest) = strip(text, b"create ") {
        let (path, payload, watch) = read_assigned(alloc, rest)?;
        return Ok(Command::Create {
            path,
            payload,
            watch,
        });
    }
    if let Some(rest) = strip(text, b"update ") {
        let (path, payload, watch) = read_assigned(alloc, rest)?;
        return Ok(Command::Update {
            path,
            payload,
            watch,
        });
    }
    if let Some(rest) = strip(text, b"cas ") {
        return read_cas(alloc, rest);
    }
    if let Some(rest) = strip(text, b"clear ") {
        let path = read_whole_path(alloc, rest)?;
        return Ok(Command::Clear { path });
    }
    match_deleting_or_asking(alloc, text)
}

// The commands that delete or ask, each word in turn.
fn match_deleting_or_asking(alloc: Global, text: &[u8]) -> Result<Command, TextFault>
    ensures value { IfOk result (λ cmd. deleting_or_asking text.now ≡ Some cmd) }
    ensures bad { result ≡ Err TextFault.Bad → deleting_or_asking text.now ≡ None }
{
    if let Some(rest) = strip(text, b"del ") {
        let path = read_whole_path(alloc, rest)?;
        return Ok(Command::Del { path });
    }
    if let Some(rest) = strip(text, b"delmany ") {
        let pattern = read_whole_pattern(alloc, rest)?;
        return Ok(Command::Delmany { pattern });
    }
    if let Some(rest) = strip(text, b"get ") {
        let path = read_whole_path(alloc, rest)?;
        return Ok(Command::Get { path });
    }
    if let Some(rest) = strip(text, b"many ") {
        return read_many(alloc, rest);
    }
    if let Some(rest) = strip(text, b"count ") {
        let pattern = read_whole_pattern(alloc, rest)?;
        return Ok(Command::Count { pattern });
    }
    match_running(alloc, text)
}

// The commands that run a script, each word in turn.
#[tactic(auto, unfolding(khepri_types::specs::Reading::running))]
fn match_running(alloc: Global, text: &[u8]) -> Result<Command, TextFault>
    ensures value { IfOk result (λ cmd. running text.now ≡ Some cmd) }
    ensures bad { result ≡ Err TextFault.Bad → running text.now ≡ None }
{
    if let Some(rest) = strip(text, b"tx ") {
        return read_tx(alloc, rest);
    }
    if let Some(rest) = strip(text, b"run ") {
        return read_run(alloc, rest);
    }
    Err(TextFault::Bad)
}

// `REC SCRIPT`, behind `tx `.
#[tactic(auto, unfolding(khepri_types::specs::Reading::spelled_tx))]
fn read_tx(alloc: Global, text: &[u8]) -> Result<Command, TextFault>
    ensures value { IfOk result (λ cmd. spelled_tx text.now ≡ Some cmd) }
    ensures bad { result ≡ Err TextFault.Bad → spelled_tx text.now ≡ None }
{
    let (args, rest) = Rec::read(alloc, text)?;
    let rest = read_mark(rest, b' ')?;
    let script = read_whole_script(alloc, rest)?;
    Ok(Command::Tx { args, script })
}

// `PATH REC`, behind `run `.
#[tactic(auto, unfolding(khepri_types::specs::Reading::spelled_run))]
fn read_run(alloc: Global, text: &[u8]) -> Result<Command, TextFault>
    ensures value { IfOk result (λ cmd. spelled_run text.now ≡ Some cmd) }
    ensures bad { result ≡ Err TextFault.Bad → spelled_run text.now ≡ None }
{
    let (path, rest) = Path::read(alloc, text)?;
    let args = read_args_behind(alloc, rest)?;
    Ok(Command::Run { path, args })
}

// A record behind a space, as the whole text spells it.
#[tactic(auto, unfolding(khepri_types::specs::Reading::args_behind))]
fn read_args_behind(alloc: Global, text: &[u8]) -> Result<Rec, TextFault>
    ensures value { IfOk result (λ r. args_behind text.now ≡ Some r) }
    ensures bad { result ≡ Err TextFault.Bad → args_behind text.now ≡ None }
{
    let rest = read_mark(text, b' ')?;
    let (args, rest) = Rec::read(alloc, rest)?;
    match rest {
        [] => Ok(args),
        [_, ..] => Err(TextFault::Bad),
    }
}
