// What is true of the grammar of batches. These functions do nothing.
ghost use Rattle.sp_batch.specs.Laws.{OneRecord, OneAnswer, SomeAnswer, OneBatch};

/// A text begins with one record at most, and with what follows it; and every text that isn't empty begins with a record, is cut
/// short, or is bad, and only one of these.
pub fn law_of_records()
    ensures one { OneRecord }
    ensures some { SomeAnswer }
    ensures apart { OneAnswer }
{}

/// A text is a batch of one list of records at most.
pub fn law_of_batches()
    ensures { OneBatch }
{}
