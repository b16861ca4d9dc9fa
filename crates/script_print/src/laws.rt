//! Laws: what is printed, or spelled, is read as itself, and each script has a spelling of its own.
ghost use Rattle.std.specs.Prelude.{◌≡◌, ◌+◌, ◌∷◌, ◌++◌, List, length, IsTrue, Ok};
ghost use Rattle.script_tree.specs.declared.fault.SyntaxBad.{SyntaxBad};
ghost use Rattle.script_tree.specs.declared.lexeme.Lexeme.{Lexeme as ALexeme};
ghost use Rattle.script_tree.specs.Grammar.{script_of, Faulty};
ghost use Rattle.script_tree.specs.Lexer.{lexemes_of};
ghost use Rattle.script_print.specs.Layout.{printed};
ghost use Rattle.script_tree.specs.Reading.{script_read};
ghost use Rattle.script_tree.specs.Spelling.{spell_statements, is_script};
ghost use Rattle.script_tree.specs.Tree.{Bytes, Statements};

/// The text that a script is printed as is read as the tokens that spell it.
pub fn printed_is_read_as_spelled()
    ensures { (script : Statements) → IsTrue (is_script script) → lexemes_of (printed script) ≡ spell_statements script }
{}

/// A text whose tokens spell a script is read as that script, whatever stands between its tokens.
pub fn spelled_is_read_as_itself()
    ensures { (text : Bytes) (script : Statements) → IsTrue (is_script script) → lexemes_of text ≡ spell_statements script → script_read text ≡ Ok script }
{}

/// The text that a script is printed as is read as that script.
pub fn printed_is_read_as_itself()
    ensures { (script : Statements) → IsTrue (is_script script) → script_read (printed script) ≡ Ok script }
{}

/// Scripts that are spelled alike are one script.
pub fn one_spelling_one_tree()
    ensures { (a b : Statements) → IsTrue (is_script a) → IsTrue (is_script b) → spell_statements a ≡ spell_statements b → a ≡ b }
{}

/// No script begins with the tokens up to the one at which reading stops.
pub fn a_refused_token_continues_no_script()
    ensures { (front : List ALexeme) (token : ALexeme) (rest : List ALexeme) (kind : SyntaxBad) → script_of (front ++ token ∷ rest) ≡ Faulty (record { left = length rest + 1; kind = kind }) → (script : Statements) (more : List ALexeme) → IsTrue (is_script script) → spell_statements script ≡ front ++ token ∷ more → ⊥ }
{}
