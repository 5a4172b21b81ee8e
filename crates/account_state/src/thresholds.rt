// The thresholds of a state beside the weights of their holders.
ghost use Rattle.std.specs.Prelude.{◌≡◌, Ok};
ghost use Rattle.protocol.specs.Rows.{decide};
ghost use Rattle.account_state.specs.State.{recovery_threshold_rows, threshold_rows};

use crate::fields::recovery_enabled;
use crate::header::StateHeader;
use crate::walk::StateSummary;
use protocol::{ProtocolError, require};

impl StateHeader {
    #[tactic(auto, unfolding(protocol::specs::Rows::decide, crate::specs::State::recovery_threshold_rows))]
    fn check_recovery(&self, weight: u32) -> Result<(), ProtocolError>
        ensures { result ≡ decide (Ok tt) (recovery_threshold_rows self.now.flags self.now.recovery_threshold self.now.recovery_since weight) }
    {
        if recovery_enabled(self.flags) {
            let unmet = ProtocolError::UnsatisfiableThreshold;
            require(1 <= self.recovery_threshold, unmet)?;
            require(self.recovery_threshold as u32 <= weight, unmet)
        } else {
            let invalid = ProtocolError::InvalidState;
            require(self.recovery_threshold == 0, invalid)?;
            require(self.recovery_since == 0, invalid)
        }
    }

    // The thresholds and the recovery fields, of a state that is read or is to be written.
    #[tactic(auto, using(protocol::proofs::AllPass::deciding), unfolding(protocol::specs::Rows::decide, crate::specs::State::threshold_rows))]
    pub fn check_thresholds(&self, weights: StateSummary) -> Result<(), ProtocolError>
        ensures { result ≡ decide (Ok tt) (threshold_rows self.now.flags self.now.spend_threshold self.now.rotate_threshold
            self.now.recovery_threshold self.now.recovery_since weights) }
    {
        let unmet = ProtocolError::UnsatisfiableThreshold;
        require(1 <= self.spend_threshold, unmet)?;
        require(1 <= self.rotate_threshold, unmet)?;
        require(self.spend_threshold as u32 <= weights.spend_weight, unmet)?;
        require(self.rotate_threshold as u32 <= weights.rotate_weight, unmet)?;
        self.check_recovery(weights.recovery_weight)
    }
}
