// Laws of the grammar: functions without code, whose contracts are the laws.
ghost use Rattle.fd_rowfile.specs.Examples.{BlockCases, RowCases};
ghost use Rattle.fd_rowfile.specs.Laws.{BlockLaw, TextLaw};

/// A block has one list of lines, and a refused line is the first with which no block begins.
#[tactic(auto, using(crate::proofs::Unique::block_law))]
pub fn block_law()
    ensures { BlockLaw }
{}

/// The bytes of a block are read as that block and as nothing else.
#[tactic(auto, using(crate::proofs::BlockForms::text_law))]
pub fn text_law()
    ensures { TextLaw }
{}

/// Small cases of a row.
#[tactic(auto, using(crate::proofs::Examples::row_cases))]
pub fn row_cases()
    ensures { RowCases }
{}

/// Small cases of a block.
#[tactic(auto, using(crate::proofs::Examples::block_cases))]
pub fn block_cases()
    ensures { BlockCases }
{}
