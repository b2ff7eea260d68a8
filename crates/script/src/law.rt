// What the format of scripts comes to.
ghost use Rattle.script.specs.Grammar.{ScriptLaws};

/// The forms of lines, and that each text says one thing.
pub fn script_laws()
    ensures { ScriptLaws }
{}
