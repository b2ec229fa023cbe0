use bucket_core::Law;

/// The law of the store: which event may follow which history. Clients that keep it drop nothing that is needed.
pub struct StoreLaw;

impl Law for StoreLaw {
    ghost use Rattle.store_model.specs.Law.{IsClaimed};
    ghost use Rattle.store_model.proofs.Stable.{claims_stay as claims_do_stay, tests_tell as tests_do_tell};
    ghost use Rattle.store_model.proofs.MovesOn.{moves_on as do_move_on};

    ghost claimed = { IsClaimed };

    ghost claims_stay = { claims_do_stay };

    ghost tests_tell = { tests_do_tell };

    ghost moves_on = { do_move_on };
}
