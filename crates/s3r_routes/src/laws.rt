//! What is true of the request table.
ghost use Rattle.s3r_routes.specs.Laws.{OneRowFits};

/// No two rows of the request table fit one request by one method.
pub fn one_row_fits()
    ensures { OneRowFits }
{}
