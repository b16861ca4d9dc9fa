//! Laws over the grammar of scripts: what is read as a script is its spelling, and a fault stands at the first place which no script goes on past.
ghost use Rattle.std.specs.Prelude.{◌≡◌, ◌≤◌, ◌++◌, ℕ, List, length, Err, IsTrue};
ghost use Rattle.std.specs.List.{list_all};
ghost use Rattle.script_tree.specs.declared.fault.SyntaxBad.{SyntaxBad};
ghost use Rattle.script_tree.specs.declared.fault.SyntaxFault.TheVariants as faults;
ghost use Rattle.script_tree.specs.declared.lexeme.Lexeme.{Lexeme as ALexeme};
ghost use Rattle.script_tree.specs.Grammar.{script_of, Fine, Faulty};
ghost use Rattle.script_tree.specs.Lexer.{lexemes_of};
ghost use Rattle.script_tree.specs.Reading.{script_read};
ghost use Rattle.script_tree.specs.Spelling.{spell_statements, is_script};
ghost use Rattle.script_tree.specs.Tree.{Bytes, Statements};
ghost use Rattle.script_print.specs.Beginnings.{BeginsScript, FirstMisfit, open_behind};
ghost use Rattle.script_print.specs.Proper.{is_proper};

/// The names, texts and numbers of every text's tokens can be written.
pub fn tokens_of_a_text_are_proper()
    ensures { (text : Bytes) → IsTrue (list_all is_proper (lexemes_of text)) }
{}

/// Tokens that are read as a script are that script's spelling.
pub fn what_is_read_is_spelled()
    ensures { (tokens : List ALexeme) (script : Statements) → IsTrue (list_all is_proper tokens) → script_of tokens ≡ Fine script → (tokens ≡ spell_statements script) × IsTrue (is_script script) }
{}

/// A script begins with the tokens before a fault, where at most 63 brackets are open there. With 64 open a further
/// bracket may have to follow, and none may.
pub fn what_stands_before_a_fault_can_be_continued()
    ensures { (front : List ALexeme) (rest : List ALexeme) (kind : SyntaxBad) → IsTrue (list_all is_proper front) → open_behind 0 front ≤ 63 → script_of (front ++ rest) ≡ Faulty (record { left = length rest; kind = kind }) → BeginsScript front }
{}

/// The fault that is read of a text stands at the first place which no script goes on past, and says why.
pub fn a_fault_stands_at_the_first_misfit()
    ensures { (text : Bytes) (line : ℕ) (column : ℕ) (kind : SyntaxBad) → script_read text ≡ Err (faults.At line column kind) → FirstMisfit text (record { line = line; column = column }) kind }
{}
