//! Names in lines, and the kinds of what they name.

ghost use Rattle.std.specs.Prelude.{[], ◌∷◌, None, Some};
ghost use Rattle.thr_examples.specs.Lines.{HaveNames};

/// Names in statements: a line whose names are of their kinds, the same with an undeclared name at each place, and
/// with one of another kind.
#[tactic(auto, unfolding(thr_text::specs::Computing::text_words))]
pub fn names_in_statements()
    ensures set { HaveNames
        (("set v 1", None) ∷ ("set s + s a", None)
        ∷ ("set z 1", Some 16) ∷ ("set z + s a", Some 16) ∷ ("set s + z a", Some 16) ∷ ("set s + s z", Some 16)
        ∷ ("set m 1", Some 17) ∷ ("set r 1", Some 17) ∷ ("set e + s a", Some 17) ∷ ("set s + e a", Some 17) ∷ ("set s + s m", Some 17)
        ∷ []) }
    ensures say { HaveNames
        (("say v", None) ∷ ("say s", None)
        ∷ ("say z", Some 16)
        ∷ ("say m", Some 17) ∷ ("say r", Some 17) ∷ ("say e", Some 17)
        ∷ []) }
    ensures raise { HaveNames
        (("raise e", None) ∷ ("raise x", None) ∷ ("raise pipe_e", None)
        ∷ ("raise z", Some 16)
        ∷ ("raise v", Some 17) ∷ ("raise m", Some 17)
        ∷ []) }
    ensures call { HaveNames
        (("call r v", None) ∷ ("call r 1 v", None)
        ∷ ("call z v", Some 16) ∷ ("call r z", Some 16) ∷ ("call z 1 v", Some 16) ∷ ("call r 1 z", Some 16)
        ∷ ("call v v", Some 17) ∷ ("call o v", Some 17) ∷ ("call r m", Some 17) ∷ ("call r r", Some 17) ∷ ("call v 1 v", Some 17) ∷ ("call r 1 m", Some 17)
        ∷ []) }
    ensures receiver { HaveNames
        (("call r s v", None)
        ∷ ("call r s s", Some 17) ∷ ("call r 1 m", Some 17) ∷ ("call r 1 e", Some 17)
        ∷ []) }
    ensures exit { HaveNames
        (("pthread_exit s", None)
        ∷ ("pthread_exit z", Some 16)
        ∷ ("pthread_exit e", Some 17) ∷ ("pthread_exit p", Some 17)
        ∷ []) }
    ensures return_line { HaveNames
        (("return v", None)
        ∷ ("return z", Some 16)
        ∷ ("return m", Some 17) ∷ ("return r", Some 17)
        ∷ []) }
    ensures if_line { HaveNames
        (("if == v s", None)
        ∷ ("if == z s", Some 16) ∷ ("if == v z", Some 16)
        ∷ ("if == m s", Some 17) ∷ ("if == r s", Some 17) ∷ ("if == v e", Some 17) ∷ ("if == v p", Some 17)
        ∷ []) }
    ensures while_line { HaveNames
        (("while a", None)
        ∷ ("while z", Some 16)
        ∷ ("while m", Some 17) ∷ ("while r", Some 17)
        ∷ []) }
    ensures catch { HaveNames
        (("catch e", None) ∷ ("catch x", None)
        ∷ ("catch z", Some 16)
        ∷ ("catch v", Some 17) ∷ ("catch m", Some 17)
        ∷ []) }
    ensures expressions { HaveNames
        (("say exc_get_status e", None) ∷ ("say exc_matches this x", None) ∷ ("say exc_matches e x", None)
        ∷ ("say exc_get_status z", Some 16) ∷ ("say exc_matches this z", Some 16) ∷ ("say exc_matches z x", Some 16) ∷ ("say exc_matches e z", Some 16)
        ∷ ("say exc_get_status v", Some 17) ∷ ("say exc_get_status m", Some 17) ∷ ("say exc_matches this v", Some 17) ∷ ("say exc_matches v x", Some 17) ∷ ("say exc_matches e v", Some 17)
        ∷ []) }
{}

/// Names in calls on attribute cells and threads.
#[tactic(auto, unfolding(thr_text::specs::Computing::text_words))]
pub fn names_in_calls_on_threads()
    ensures attr_create { HaveNames
        (("pthread_attr_create f", None)
        ∷ ("pthread_attr_create z", Some 16)
        ∷ ("pthread_attr_create v", Some 17) ∷ ("pthread_attr_create e", Some 17)
        ∷ []) }
    ensures attr_delete { HaveNames
        (("pthread_attr_delete f", None)
        ∷ ("pthread_attr_delete z", Some 16)
        ∷ ("pthread_attr_delete v", Some 17) ∷ ("pthread_attr_delete e", Some 17)
        ∷ []) }
    ensures attr_setsched { HaveNames
        (("pthread_attr_setsched f SCHED_RR", None)
        ∷ ("pthread_attr_setsched z SCHED_RR", Some 16)
        ∷ ("pthread_attr_setsched v SCHED_RR", Some 17) ∷ ("pthread_attr_setsched e SCHED_RR", Some 17)
        ∷ []) }
    ensures attr_setprio { HaveNames
        (("pthread_attr_setprio f v", None)
        ∷ ("pthread_attr_setprio z v", Some 16) ∷ ("pthread_attr_setprio f z", Some 16)
        ∷ ("pthread_attr_setprio v v", Some 17) ∷ ("pthread_attr_setprio e v", Some 17) ∷ ("pthread_attr_setprio f m", Some 17) ∷ ("pthread_attr_setprio f r", Some 17)
        ∷ []) }
    ensures attr_setinheritsched { HaveNames
        (("pthread_attr_setinheritsched f PTHREAD_DEFAULT_SCHED", None)
        ∷ ("pthread_attr_setinheritsched z PTHREAD_DEFAULT_SCHED", Some 16)
        ∷ ("pthread_attr_setinheritsched v PTHREAD_DEFAULT_SCHED", Some 17) ∷ ("pthread_attr_setinheritsched e PTHREAD_DEFAULT_SCHED", Some 17)
        ∷ []) }
    ensures attr_setstacksize { HaveNames
        (("pthread_attr_setstacksize f s", None)
        ∷ ("pthread_attr_setstacksize z s", Some 16) ∷ ("pthread_attr_setstacksize f z", Some 16)
        ∷ ("pthread_attr_setstacksize v s", Some 17) ∷ ("pthread_attr_setstacksize e s", Some 17) ∷ ("pthread_attr_setstacksize f e", Some 17) ∷ ("pthread_attr_setstacksize f p", Some 17)
        ∷ []) }
    ensures mutexattr_create { HaveNames
        (("pthread_mutexattr_create b", None)
        ∷ ("pthread_mutexattr_create z", Some 16)
        ∷ ("pthread_mutexattr_create v", Some 17) ∷ ("pthread_mutexattr_create e", Some 17)
        ∷ []) }
    ensures mutexattr_delete { HaveNames
        (("pthread_mutexattr_delete b", None)
        ∷ ("pthread_mutexattr_delete z", Some 16)
        ∷ ("pthread_mutexattr_delete v", Some 17) ∷ ("pthread_mutexattr_delete e", Some 17)
        ∷ []) }
    ensures mutexattr_setkind_np { HaveNames
        (("pthread_mutexattr_setkind_np b MUTEX_FAST_NP", None)
        ∷ ("pthread_mutexattr_setkind_np z MUTEX_FAST_NP", Some 16)
        ∷ ("pthread_mutexattr_setkind_np v MUTEX_FAST_NP", Some 17) ∷ ("pthread_mutexattr_setkind_np e MUTEX_FAST_NP", Some 17)
        ∷ []) }
    ensures create { HaveNames
        (("pthread_create v f r s", None) ∷ ("pthread_create s default r 0", None)
        ∷ ("pthread_create z f r s", Some 16) ∷ ("pthread_create v z r s", Some 16) ∷ ("pthread_create v f z s", Some 16) ∷ ("pthread_create v f r z", Some 16) ∷ ("pthread_create z default r 0", Some 16) ∷ ("pthread_create s default z 0", Some 16)
        ∷ ("pthread_create m f r s", Some 17) ∷ ("pthread_create r f r s", Some 17) ∷ ("pthread_create v v r s", Some 17) ∷ ("pthread_create v e r s", Some 17) ∷ ("pthread_create v f v s", Some 17) ∷ ("pthread_create v f o s", Some 17) ∷ ("pthread_create v f r e", Some 17) ∷ ("pthread_create v f r p", Some 17) ∷ ("pthread_create e default r 0", Some 17) ∷ ("pthread_create s default v 0", Some 17)
        ∷ []) }
    ensures join { HaveNames
        (("pthread_join v a", None) ∷ ("pthread_join s s", None)
        ∷ ("pthread_join z a", Some 16) ∷ ("pthread_join v z", Some 16) ∷ ("pthread_join z s", Some 16) ∷ ("pthread_join s z", Some 16)
        ∷ ("pthread_join m a", Some 17) ∷ ("pthread_join r a", Some 17) ∷ ("pthread_join v m", Some 17) ∷ ("pthread_join v r", Some 17) ∷ ("pthread_join e s", Some 17) ∷ ("pthread_join s e", Some 17)
        ∷ []) }
    ensures detach { HaveNames
        (("pthread_detach v", None)
        ∷ ("pthread_detach z", Some 16)
        ∷ ("pthread_detach m", Some 17) ∷ ("pthread_detach r", Some 17)
        ∷ []) }
    ensures cancel { HaveNames
        (("pthread_cancel s", None)
        ∷ ("pthread_cancel z", Some 16)
        ∷ ("pthread_cancel e", Some 17) ∷ ("pthread_cancel p", Some 17)
        ∷ []) }
    ensures setcancel { HaveNames
        (("pthread_setcancel CANCEL_ON v", None) ∷ ("pthread_setcancel CANCEL_ON s", None)
        ∷ ("pthread_setcancel CANCEL_ON z", Some 16)
        ∷ ("pthread_setcancel CANCEL_ON m", Some 17) ∷ ("pthread_setcancel CANCEL_ON r", Some 17) ∷ ("pthread_setcancel CANCEL_ON e", Some 17)
        ∷ []) }
    ensures setasynccancel { HaveNames
        (("pthread_setasynccancel CANCEL_ON v", None) ∷ ("pthread_setasynccancel CANCEL_ON s", None)
        ∷ ("pthread_setasynccancel CANCEL_ON z", Some 16)
        ∷ ("pthread_setasynccancel CANCEL_ON m", Some 17) ∷ ("pthread_setasynccancel CANCEL_ON r", Some 17) ∷ ("pthread_setasynccancel CANCEL_ON e", Some 17)
        ∷ []) }
    ensures setprio { HaveNames
        (("pthread_setprio v a a", None) ∷ ("pthread_setprio s s s", None)
        ∷ ("pthread_setprio z a a", Some 16) ∷ ("pthread_setprio v z a", Some 16) ∷ ("pthread_setprio v a z", Some 16) ∷ ("pthread_setprio z s s", Some 16) ∷ ("pthread_setprio s z s", Some 16) ∷ ("pthread_setprio s s z", Some 16)
        ∷ ("pthread_setprio m a a", Some 17) ∷ ("pthread_setprio r a a", Some 17) ∷ ("pthread_setprio v m a", Some 17) ∷ ("pthread_setprio v r a", Some 17) ∷ ("pthread_setprio v a m", Some 17) ∷ ("pthread_setprio v a r", Some 17) ∷ ("pthread_setprio e s s", Some 17) ∷ ("pthread_setprio s e s", Some 17) ∷ ("pthread_setprio s s e", Some 17)
        ∷ []) }
    ensures getprio { HaveNames
        (("pthread_getprio v a", None) ∷ ("pthread_getprio s s", None)
        ∷ ("pthread_getprio z a", Some 16) ∷ ("pthread_getprio v z", Some 16) ∷ ("pthread_getprio z s", Some 16) ∷ ("pthread_getprio s z", Some 16)
        ∷ ("pthread_getprio m a", Some 17) ∷ ("pthread_getprio r a", Some 17) ∷ ("pthread_getprio v m", Some 17) ∷ ("pthread_getprio v r", Some 17) ∷ ("pthread_getprio e s", Some 17) ∷ ("pthread_getprio s e", Some 17)
        ∷ []) }
    ensures setscheduler { HaveNames
        (("pthread_setscheduler v SCHED_RR a v", None) ∷ ("pthread_setscheduler s SCHED_RR s s", None)
        ∷ ("pthread_setscheduler z SCHED_RR a v", Some 16) ∷ ("pthread_setscheduler v SCHED_RR z v", Some 16) ∷ ("pthread_setscheduler v SCHED_RR a z", Some 16) ∷ ("pthread_setscheduler z SCHED_RR s s", Some 16) ∷ ("pthread_setscheduler s SCHED_RR z s", Some 16) ∷ ("pthread_setscheduler s SCHED_RR s z", Some 16)
        ∷ ("pthread_setscheduler m SCHED_RR a v", Some 17) ∷ ("pthread_setscheduler r SCHED_RR a v", Some 17) ∷ ("pthread_setscheduler v SCHED_RR m v", Some 17) ∷ ("pthread_setscheduler v SCHED_RR r v", Some 17) ∷ ("pthread_setscheduler v SCHED_RR a m", Some 17) ∷ ("pthread_setscheduler v SCHED_RR a r", Some 17) ∷ ("pthread_setscheduler e SCHED_RR s s", Some 17) ∷ ("pthread_setscheduler s SCHED_RR e s", Some 17) ∷ ("pthread_setscheduler s SCHED_RR s e", Some 17)
        ∷ []) }
    ensures getscheduler { HaveNames
        (("pthread_getscheduler v a", None) ∷ ("pthread_getscheduler s s", None)
        ∷ ("pthread_getscheduler z a", Some 16) ∷ ("pthread_getscheduler v z", Some 16) ∷ ("pthread_getscheduler z s", Some 16) ∷ ("pthread_getscheduler s z", Some 16)
        ∷ ("pthread_getscheduler m a", Some 17) ∷ ("pthread_getscheduler r a", Some 17) ∷ ("pthread_getscheduler v m", Some 17) ∷ ("pthread_getscheduler v r", Some 17) ∷ ("pthread_getscheduler e s", Some 17) ∷ ("pthread_getscheduler s e", Some 17)
        ∷ []) }
    ensures delay_np { HaveNames
        (("pthread_delay_np v", None)
        ∷ ("pthread_delay_np z", Some 16)
        ∷ ("pthread_delay_np m", Some 17) ∷ ("pthread_delay_np r", Some 17)
        ∷ []) }
    ensures get_expiration_np { HaveNames
        (("pthread_get_expiration_np v a", None) ∷ ("pthread_get_expiration_np s s", None)
        ∷ ("pthread_get_expiration_np z a", Some 16) ∷ ("pthread_get_expiration_np v z", Some 16) ∷ ("pthread_get_expiration_np z s", Some 16) ∷ ("pthread_get_expiration_np s z", Some 16)
        ∷ ("pthread_get_expiration_np m a", Some 17) ∷ ("pthread_get_expiration_np r a", Some 17) ∷ ("pthread_get_expiration_np v m", Some 17) ∷ ("pthread_get_expiration_np v r", Some 17) ∷ ("pthread_get_expiration_np e s", Some 17) ∷ ("pthread_get_expiration_np s e", Some 17)
        ∷ []) }
{}

/// Names in calls on mutexes, conditions, once blocks, keys and pipes.
#[tactic(auto, unfolding(thr_text::specs::Computing::text_words))]
pub fn names_in_calls_on_objects()
    ensures mutex_init { HaveNames
        (("pthread_mutex_init m b", None) ∷ ("pthread_mutex_init m default", None)
        ∷ ("pthread_mutex_init z b", Some 16) ∷ ("pthread_mutex_init m z", Some 16) ∷ ("pthread_mutex_init z default", Some 16)
        ∷ ("pthread_mutex_init v b", Some 17) ∷ ("pthread_mutex_init e b", Some 17) ∷ ("pthread_mutex_init m v", Some 17) ∷ ("pthread_mutex_init m e", Some 17) ∷ ("pthread_mutex_init v default", Some 17)
        ∷ []) }
    ensures mutex_destroy { HaveNames
        (("pthread_mutex_destroy m", None)
        ∷ ("pthread_mutex_destroy z", Some 16)
        ∷ ("pthread_mutex_destroy v", Some 17) ∷ ("pthread_mutex_destroy e", Some 17)
        ∷ []) }
    ensures mutex_lock { HaveNames
        (("pthread_mutex_lock m", None)
        ∷ ("pthread_mutex_lock z", Some 16)
        ∷ ("pthread_mutex_lock v", Some 17) ∷ ("pthread_mutex_lock e", Some 17)
        ∷ []) }
    ensures mutex_unlock { HaveNames
        (("pthread_mutex_unlock m", None)
        ∷ ("pthread_mutex_unlock z", Some 16)
        ∷ ("pthread_mutex_unlock v", Some 17) ∷ ("pthread_mutex_unlock e", Some 17)
        ∷ []) }
    ensures mutex_trylock { HaveNames
        (("pthread_mutex_trylock m v", None) ∷ ("pthread_mutex_trylock m s", None)
        ∷ ("pthread_mutex_trylock z v", Some 16) ∷ ("pthread_mutex_trylock m z", Some 16) ∷ ("pthread_mutex_trylock z s", Some 16)
        ∷ ("pthread_mutex_trylock v v", Some 17) ∷ ("pthread_mutex_trylock e v", Some 17) ∷ ("pthread_mutex_trylock m m", Some 17) ∷ ("pthread_mutex_trylock m r", Some 17) ∷ ("pthread_mutex_trylock v s", Some 17) ∷ ("pthread_mutex_trylock m e", Some 17)
        ∷ []) }
    ensures cond_init { HaveNames
        (("pthread_cond_init c", None)
        ∷ ("pthread_cond_init z", Some 16)
        ∷ ("pthread_cond_init v", Some 17) ∷ ("pthread_cond_init e", Some 17)
        ∷ []) }
    ensures cond_destroy { HaveNames
        (("pthread_cond_destroy c", None)
        ∷ ("pthread_cond_destroy z", Some 16)
        ∷ ("pthread_cond_destroy v", Some 17) ∷ ("pthread_cond_destroy e", Some 17)
        ∷ []) }
    ensures cond_signal { HaveNames
        (("pthread_cond_signal c", None)
        ∷ ("pthread_cond_signal z", Some 16)
        ∷ ("pthread_cond_signal v", Some 17) ∷ ("pthread_cond_signal e", Some 17)
        ∷ []) }
    ensures cond_broadcast { HaveNames
        (("pthread_cond_broadcast c", None)
        ∷ ("pthread_cond_broadcast z", Some 16)
        ∷ ("pthread_cond_broadcast v", Some 17) ∷ ("pthread_cond_broadcast e", Some 17)
        ∷ []) }
    ensures cond_wait { HaveNames
        (("pthread_cond_wait c m", None)
        ∷ ("pthread_cond_wait z m", Some 16) ∷ ("pthread_cond_wait c z", Some 16)
        ∷ ("pthread_cond_wait v m", Some 17) ∷ ("pthread_cond_wait e m", Some 17) ∷ ("pthread_cond_wait c v", Some 17) ∷ ("pthread_cond_wait c e", Some 17)
        ∷ []) }
    ensures cond_timedwait { HaveNames
        (("pthread_cond_timedwait c m v", None)
        ∷ ("pthread_cond_timedwait z m v", Some 16) ∷ ("pthread_cond_timedwait c z v", Some 16) ∷ ("pthread_cond_timedwait c m z", Some 16)
        ∷ ("pthread_cond_timedwait v m v", Some 17) ∷ ("pthread_cond_timedwait e m v", Some 17) ∷ ("pthread_cond_timedwait c v v", Some 17) ∷ ("pthread_cond_timedwait c e v", Some 17) ∷ ("pthread_cond_timedwait c m m", Some 17) ∷ ("pthread_cond_timedwait c m r", Some 17)
        ∷ []) }
    ensures once { HaveNames
        (("pthread_once o r", None)
        ∷ ("pthread_once z r", Some 16) ∷ ("pthread_once o z", Some 16)
        ∷ ("pthread_once v r", Some 17) ∷ ("pthread_once e r", Some 17) ∷ ("pthread_once o v", Some 17) ∷ ("pthread_once o o", Some 17)
        ∷ []) }
    ensures keycreate { HaveNames
        (("pthread_keycreate k r", None) ∷ ("pthread_keycreate k none", None)
        ∷ ("pthread_keycreate z r", Some 16) ∷ ("pthread_keycreate k z", Some 16) ∷ ("pthread_keycreate z none", Some 16)
        ∷ ("pthread_keycreate v r", Some 17) ∷ ("pthread_keycreate e r", Some 17) ∷ ("pthread_keycreate k v", Some 17) ∷ ("pthread_keycreate k o", Some 17) ∷ ("pthread_keycreate v none", Some 17)
        ∷ []) }
    ensures setspecific { HaveNames
        (("pthread_setspecific k v", None)
        ∷ ("pthread_setspecific z v", Some 16) ∷ ("pthread_setspecific k z", Some 16)
        ∷ ("pthread_setspecific v v", Some 17) ∷ ("pthread_setspecific e v", Some 17) ∷ ("pthread_setspecific k m", Some 17) ∷ ("pthread_setspecific k r", Some 17)
        ∷ []) }
    ensures getspecific { HaveNames
        (("pthread_getspecific k v", None) ∷ ("pthread_getspecific k s", None)
        ∷ ("pthread_getspecific z v", Some 16) ∷ ("pthread_getspecific k z", Some 16) ∷ ("pthread_getspecific z s", Some 16)
        ∷ ("pthread_getspecific v v", Some 17) ∷ ("pthread_getspecific e v", Some 17) ∷ ("pthread_getspecific k m", Some 17) ∷ ("pthread_getspecific k r", Some 17) ∷ ("pthread_getspecific v s", Some 17) ∷ ("pthread_getspecific k e", Some 17)
        ∷ []) }
    ensures read { HaveNames
        (("read p v a", None) ∷ ("read p s s", None)
        ∷ ("read z v a", Some 16) ∷ ("read p z a", Some 16) ∷ ("read p v z", Some 16) ∷ ("read z s s", Some 16) ∷ ("read p z s", Some 16) ∷ ("read p s z", Some 16)
        ∷ ("read v v a", Some 17) ∷ ("read e v a", Some 17) ∷ ("read p m a", Some 17) ∷ ("read p r a", Some 17) ∷ ("read p v m", Some 17) ∷ ("read p v r", Some 17) ∷ ("read v s s", Some 17) ∷ ("read p e s", Some 17) ∷ ("read p s e", Some 17)
        ∷ []) }
    ensures write { HaveNames
        (("write p v", None)
        ∷ ("write z v", Some 16) ∷ ("write p z", Some 16)
        ∷ ("write v v", Some 17) ∷ ("write e v", Some 17) ∷ ("write p m", Some 17) ∷ ("write p r", Some 17)
        ∷ []) }
    ensures close { HaveNames
        (("close p", None)
        ∷ ("close z", Some 16)
        ∷ ("close v", Some 17) ∷ ("close e", Some 17)
        ∷ []) }
{}

/// Names that declarations declare again.
#[tactic(auto, unfolding(thr_text::specs::Computing::text_words))]
pub fn names_that_are_declared_again()
    ensures declarations { HaveNames
        (("mutex n", None) ∷ ("routine n a", None) ∷ ("status n 1", None)
        ∷ []) }
    ensures again { HaveNames
        (("shared s 0", Some 15) ∷ ("exception e", Some 15) ∷ ("status x 1", Some 15) ∷ ("mutex m", Some 15) ∷ ("mutexattr b", Some 15) ∷ ("cond c", Some 15) ∷ ("attr f", Some 15) ∷ ("key k", Some 15) ∷ ("once o", Some 15) ∷ ("pipe p 4", Some 15) ∷ ("routine r n", Some 15) ∷ ("exception m", Some 15) ∷ ("routine n r", Some 15) ∷ ("local a", Some 15) ∷ ("local v", Some 15) ∷ ("local r", Some 15) ∷ ("local pipe_e", Some 15)
        ∷ []) }
{}
