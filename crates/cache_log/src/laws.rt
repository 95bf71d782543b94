ghost use Rattle.cache_log.specs.Laws.{HaveOneList, AreReadAgain, AreAtMostTwoEach};

/// A law: bytes have at most one list of records from a commit's tail up to its head.
pub fn bytes_have_one_list_of_records()
    ensures { HaveOneList }
{}

/// A law: where the records of entries stand that a volume takes, they are read, and no others.
pub fn records_are_read_again()
    ensures { AreReadAgain }
{}

/// A law: at most two headers are read for each record, its own and that of the pad before it.
pub fn at_most_two_headers_are_read_for_each_record()
    ensures { AreAtMostTwoEach }
{}
