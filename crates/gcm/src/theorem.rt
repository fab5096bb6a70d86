// What is true of sealing and opening for every key, nonce, additional data and text.
ghost use Rattle.gcm.specs.Statements.{OpenUndoesSeal};

pub fn opening_undoes_sealing()
    ensures { OpenUndoesSeal }
{}
