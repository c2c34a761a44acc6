//! What each call but SUBSCRIBE is first asked.

ghost use Rattle.std.specs.Prelude.{◌≡◌};
ghost use Rattle.cluster_model.specs.Ids.{is_among};
ghost use Rattle.master_state.specs.Works.{admission, admission_of, admission_on, master_of};

use crate::state::State;
use messages::MasterRefusal;
use names_core::{FrameworkId, StreamId};

fn admit_on(given: Option<StreamId>, open_stream: StreamId) -> Result<StreamId, MasterRefusal>
    ensures { result ≡ admission_on given open_stream }
{
    match given {
        None => Err(MasterRefusal::WrongStream),
        Some(stream) => {
            if stream == open_stream {
                Ok(open_stream)
            } else {
                Err(MasterRefusal::WrongStream)
            }
        }
    }
}

fn admit_of(
    given: Option<StreamId>,
    is_torn: bool,
    known: Option<Option<StreamId>>,
) -> Result<StreamId, MasterRefusal>
    ensures { result ≡ admission_of given is_torn known }
{
    let Some(stream) = known else {
        return Err(MasterRefusal::NoSuchFramework);
    };
    if is_torn {
        return Err(MasterRefusal::NoSuchFramework);
    }
    match stream {
        None => Err(MasterRefusal::NotSubscribed),
        Some(open_stream) => admit_on(given, open_stream),
    }
}

impl State {
    /// Whether a framework was torn down in this run.
    pub fn is_torn(&self, framework: FrameworkId) -> bool
        ensures { result ≡ is_among self.now.torn framework }
    {
        self.torn.as_slice().contains(&framework)
    }

    /// The open stream of a framework that calls on it. `M3 NoSuchFramework` where the framework
    /// isn't known in this run or was torn down, `M1 NotSubscribed` where it has no open stream,
    /// `M2 WrongStream` where the call came with another stream or with none.
    pub fn admit(
        &self,
        given: Option<StreamId>,
        framework: FrameworkId,
    ) -> Result<StreamId, MasterRefusal>
        ensures { result ≡ admission (master_of self.now) given framework }
    {
        let is_torn = self.is_torn(framework);
        admit_of(given, is_torn, self.frameworks.stream_of(framework))
    }
}
