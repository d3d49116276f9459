// Specs only: there is a registry and a state that scopes, plan and options stand for, so that what the code works out stands too.
#![tactic(auto)]
