// What follows from the definitions of the grammar and of scripts.
ghost use Rattle.std.specs.Prelude.{◌≡◌, ◌++◌, ◌∷◌, [], Bool, List, ℕ, length, true};
ghost use Rattle.std.specs.Option.{option_map};
ghost use Rattle.mt_values.specs.declared.statement.Cause.{Cause};
ghost use Rattle.mt_values.specs.declared.statement.Slip.{Slip};
ghost use Rattle.mt_values.specs.declared.statement.Statement.{Statement};
ghost use Rattle.mt_values.specs.declared.token.Placed.{Placed};
ghost use Rattle.mt_values.specs.Grammar.{place_of_first, statement_of, statement_reader, tokens_and_end};
ghost use Rattle.mt_values.specs.Script.{has_whole, next_statement};
ghost use Rattle.sql_read.specs.Places.{DeepFault, FirstFault, GoesOn, LongFault};

/// The place of a fault is that of the first token with which no statement goes on: with those before it some statement
/// does. So it is where the tokens come to their end too early: with all of them some statement goes on. A name that is
/// too long is the first fault in the same way, and any name that fits goes on in its place. So it is of a NOT or an open
/// parenthesis that is one more than may be open. A statement is not the front of another.
pub fn faults_are_first()
    ensures wrong { (text lines : List ℕ) (ended : Bool) (tokens rest : List Placed)
        → statement_reader text lines ended tokens ≡ Err (Slip.Wrong, rest)
        → FirstFault (statement_reader text lines ended) tokens rest }
    ensures long { (text lines : List ℕ) (ended : Bool) (tokens rest : List Placed)
        → statement_reader text lines ended tokens ≡ Err (Slip.LongName, rest)
        → LongFault (statement_reader text lines ended) tokens rest }
    ensures deep { (text lines : List ℕ) (ended : Bool) (tokens rest : List Placed)
        → statement_reader text lines ended tokens ≡ Err (Slip.TooDeep, rest)
        → DeepFault (statement_reader text lines ended) tokens rest }
    ensures whole { (text lines : List ℕ) (ended : Bool) (tokens : List Placed) (s : Statement)
        → statement_reader text lines ended tokens ≡ Ok s
        → (p : Placed) → ¬ GoesOn (statement_reader text lines ended) (tokens ++ p ∷ []) }
{}

/// Why a text is refused says the same: the place of `Grammar` is that of the first token with which no statement goes on,
/// or the text's length where there is none; and where the cause is `LongName` or `TooDeep`, the first fault is such a name or
/// such a token.
pub fn causes_are_first()
    ensures grammar { (text lines : List ℕ) (terminated ended : Bool) (place : ℕ)
        → statement_of text terminated lines ended ≡ Err (Cause.Grammar place)
        → (rest : List Placed)
        × FirstFault (statement_reader text lines ended) (tokens_and_end text terminated) rest
        × (place ≡ place_of_first (length text) rest) }
    ensures long { (text lines : List ℕ) (terminated ended : Bool)
        → statement_of text terminated lines ended ≡ Err Cause.LongName
        → (rest : List Placed)
        × LongFault (statement_reader text lines ended) (tokens_and_end text terminated) rest }
    ensures deep { (text lines : List ℕ) (terminated ended : Bool)
        → statement_of text terminated lines ended ≡ Err Cause.TooDeep
        → (rest : List Placed)
        × DeepFault (statement_reader text lines ended) (tokens_and_end text terminated) rest }
{}

/// Where the bytes of a script so far end its first statement, with its data, that statement is the same whatever comes
/// after them, and what comes comes after the rest of the script.
pub fn whole_statements_stay()
    ensures next { (script more : List ℕ) → has_whole script ≡ true
        → next_statement (script ++ more)
        ≡ option_map (λ f. (f.0, f.1 ++ more)) (next_statement script) }
    ensures whole { (script more : List ℕ) → has_whole script ≡ true
        → has_whole (script ++ more) ≡ true }
{}
