ghost use Rattle.volume_server.specs.History.{RequestsGrow, SessionGrows};
ghost use Rattle.volume_server.specs.Serving.{ClientsGrow, link_told};

use lsvd_listen::Connection;
use lsvd_objstore::Receipt;

/// A law: the history of a volume grows by the entries of the requests that a session of its owner answered,
/// in order and each once, and by at most one more, where its link failed. A volume that had room for calls
/// of its owner before has room after.
pub fn a_session_adds_what_it_entered<R: Receipt>()
    ensures requests { RequestsGrow R.state }
    ensures session { SessionGrows R.state }
{}

/// A law: the history of a volume goes on from one client of its owner to the next, and nothing else becomes
/// of the volume. One that had room for calls of its owner before has room after.
pub fn clients_add_to_one_history<R: Receipt, K: Connection>()
    ensures { ClientsGrow R.state
        (link_told K.remaining K.contents K.held K.Source.faults) }
{
    a_session_adds_what_it_entered::<R>();
}
