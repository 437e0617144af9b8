//! The laws of the texts of conditions, patterns, commands, replies and output lines, both ways: what is spelled is read again,
//! and what is read was spelled.
ghost use Rattle.std.specs.Prelude.{◌≡◌, ◌↔◌, ℕ, List, ◌++◌, Some};
ghost use Rattle.khepri_types.specs.declared.command.Command.{Command};
ghost use Rattle.khepri_types.specs.declared.condition.Condition.{Condition};
ghost use Rattle.khepri_types.specs.declared.out.OutLine.{OutLine};
ghost use Rattle.khepri_types.specs.declared.pattern.PatternPart.{PatternPart};
ghost use Rattle.khepri_types.specs.declared.reply.Reply.{Reply};
ghost use Rattle.khepri_types.specs.ConditionTexts.{condition_text, IsCondition};
ghost use Rattle.khepri_types.specs.PatternTexts.{pattern_text, IsPattern, EndsPattern};
ghost use Rattle.khepri_types.specs.Reading.{spelled_command};
ghost use Rattle.khepri_types.specs.ReadingConditions.{condition_at, pattern_at};
ghost use Rattle.khepri_types.specs.ReadingOut.{spelled_reply, out_at};
ghost use Rattle.khepri_types.specs.Spelled.{IsCommand, IsReply, HasSpelling};
ghost use Rattle.khepri_types.specs.Texts.{command_text, reply_text, out_text};

/// A condition is read again from its text, whatever follows it, and whatever is read as a condition is spelled so.
pub fn condition_spelling()
    ensures again { (c : Condition) (rest : List ℕ) → IsCondition c → condition_at (condition_text c ++ rest) ≡ Some (c, rest) }
    ensures takes { (text : List ℕ) (c : Condition) (rest : List ℕ) → condition_at text ≡ Some (c, rest) → (text ≡ condition_text c ++ rest) × IsCondition c }
{}

/// A pattern is read again from its text, where what follows does not go on with it, and whatever is read as a pattern is spelled so.
pub fn pattern_spelling()
    ensures again { (parts : List PatternPart) (rest : List ℕ) → IsPattern parts → EndsPattern rest → pattern_at (pattern_text parts ++ rest) ≡ Some (parts, rest) }
    ensures takes { (text : List ℕ) (parts : List PatternPart) (rest : List ℕ) → pattern_at text ≡ Some (parts, rest) → (text ≡ pattern_text parts ++ rest) × IsPattern parts }
{}

/// A command is read exactly where it is a command's spelling.
pub fn command_spelling()
    ensures { (text : List ℕ) (cmd : Command) → (spelled_command text ≡ Some cmd) ↔ ((text ≡ command_text cmd) × IsCommand cmd) }
{}

/// A reply is read exactly where it is a reply's spelling.
pub fn reply_spelling()
    ensures { (text : List ℕ) (r : Reply) → (spelled_reply text ≡ Some r) ↔ ((text ≡ reply_text r) × IsReply r) }
{}

/// An output line is read exactly where it is an output line's spelling.
pub fn output_spelling()
    ensures { (text : List ℕ) (x : OutLine) → (out_at text ≡ Some x) ↔ ((text ≡ out_text x) × HasSpelling x) }
{}
