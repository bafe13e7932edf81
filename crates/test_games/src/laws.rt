//! Laws are contracts of functions that do nothing, so they take no time.
fn call_those_of_boards() {
    go_board::laws::limits();
    go_board::laws::reaches_by_a_path();
    go_board::laws::joined_by_a_path();
    go_board::laws::liberty_by_a_path();
    go_board::laws::vanished_at_most_all();
    go_board::laws::one_colour_lives();
    go_board::laws::points_by_number();
    go_board::laws::taken_and_left();
    go_board::laws::packs_tell_colourings_apart();
    go_board::laws::bytes_make_a_pack();
    go_chains::laws::rewinds_all();
}

fn call_those_of_games() {
    go_game::laws::moves_taken_back();
    go_game::laws::whole_state_restored();
    go_game::laws::cells_restored();
    go_game::laws::positional_by_positions();
    go_game::laws::situational_by_situations();
    go_game::laws::legal_by_the_rules();
    go_game::laws::choice_by_the_rule();
    go_game::laws::choice_is_legal();
}

#[test]
fn laws_take_no_time(_rt: HostRuntime) {
    for _ in 0..1_000_000u32 {
        call_those_of_boards();
        call_those_of_games();
    }
}
