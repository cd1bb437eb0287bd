ghost use Rattle.zim_parse.specs.AnswerLaw.{AcceptedAsOne, AcceptedIsNotRefused, FaultIsAtToken, RefusedWithOne, TokensHaveAnswer};
ghost use Rattle.zim_parse.specs.SpellingLaw.{MeansWhatIsSpelled, PlacesAreOfTokens, ReadIsSpelled, SpelledIsRead};
ghost use Rattle.zim_parse.specs.StatementLaw.{OneStatement, ParserReadsStatements};

/// Nothing to run: the contract is the law that a list of tokens spells at most one tight statement, one
/// that the grammar derives from some tokens, but for its places.
pub fn statements_are_unique()
    ensures { OneStatement }
{}

/// Nothing to run: the contract is the law that the parser reads a list of tokens as a statement exactly
/// where the grammar does.
pub fn parser_reads_statements()
    ensures { ParserReadsStatements }
{}

/// Nothing to run: the contract is the law that each place in a statement is that of one of its tokens.
pub fn places_are_of_tokens()
    ensures { PlacesAreOfTokens }
{}

/// Nothing to run: the contract is the law that the tokens of a derivation are the spelling of its
/// statement, and that tokens that spell a tight statement have a derivation.
pub fn read_is_spelled()
    ensures spelled { ReadIsSpelled }
    ensures read { SpelledIsRead }
{}

/// Nothing to run: the contract is the law that the answers mean what the tokens spell: a tight
/// statement, or none.
pub fn answers_mean_what_is_spelled()
    ensures { MeansWhatIsSpelled }
{}

/// Nothing to run: the contract is the law that tokens have exactly one answer, a statement or a fault,
/// and that a fault stands at one of them.
pub fn answers_are_unique()
    ensures some { TokensHaveAnswer }
    ensures statement { AcceptedAsOne }
    ensures either { AcceptedIsNotRefused }
    ensures fault { RefusedWithOne }
    ensures place { FaultIsAtToken }
{}
