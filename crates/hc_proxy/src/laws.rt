//! What holds of each loop, as contracts of functions that do nothing.
ghost use Rattle.hc_proxy.specs.Asked.{StartsAreAsked};
ghost use Rattle.hc_proxy.specs.Ended.{EndsAreReceived};
ghost use Rattle.hc_proxy.specs.Laws.{LoopsAreRuns};
ghost use Rattle.hc_proxy.specs.Rendered.{AnswersAreOwed};
ghost use Rattle.hc_proxy.specs.Sentences.{LogsAreAsSaid, EndsAreAsSaid};
ghost use Rattle.hc_proxy.specs.Received.{EventsAreReceived};

/// Whatever a log says, the events that the loop steps are a run from the contents with which its store
/// began, and the tables are those behind it. Each consumer reads one answer whole.
pub fn loops_are_runs()
    ensures { LoopsAreRuns }
{}

/// What the loop says of a log, as sentences: when each call waits, who is read, who lacks bytes, who
/// stands and who is closed, and that the record is the text of all turns.
pub fn logs_are_as_said()
    ensures { LogsAreAsSaid }
{}

/// And behind the last turn: one dial for each exchange that was opened, all connections closed, and
/// nothing lacking but where less was taken than was offered.
pub fn ends_are_as_said()
    ensures { EndsAreAsSaid }
{}

/// Whatever a log says, consumers are started for what clients asked, and their numbers go on behind
/// those of the contents. Each is a client's. Those of one client were started for its first requests,
/// each once and in their order.
pub fn starts_are_asked()
    ensures { StartsAreAsked }
{}

/// Whatever a log says, an exchange is told the first of what its connection sent: heads, and bytes of
/// bodies.
pub fn events_are_received()
    ensures { EventsAreReceived }
{}

/// Whatever a log says, an end is told only behind a whole answer, or one that the close of the
/// connection makes whole.
pub fn ends_are_received()
    ensures { EndsAreReceived }
{}

/// Whatever a log says, a client is owed the answers to its first requests, each once and in their order.
/// Behind them stands an error answer just where the next bytes are no request.
pub fn answers_are_owed()
    ensures { AnswersAreOwed }
{}
